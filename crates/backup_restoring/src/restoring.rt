//! Restoring a backup.
ghost use Rattle.std.specs.Prelude.{◌≡◌, OnOk, IfErr, IfSome, IsTrue};
ghost use Rattle.afl_outside.specs.Disk.{DiskGoesOn};
ghost use Rattle.page_chain.specs.Puts.{OnlySyncs};
ghost use Rattle.backup_restoring.specs.Restores.{HasCause, HasRead, IsMeasured, IsRestored, IsTested, WhereUnwritten};
ghost use Rattle.backup_restoring.specs.Inner.Making.{IsRestoreFault, IsRestoredFrom};

use crate::fault::RestoreFault;
use crate::making::{make, measure};
use crate::reading::{read_to_end, tested};
use afl_outside::{Disk, Source};
use std::alloc::Global;

/// Makes an empty disk the database of these bytes.
fn restore_bytes<D: Disk>(
    alloc: Global,
    bytes: &[u8],
    disk: D,
    pages: u32,
) -> (Result<(), RestoreFault>, D)
    ensures tested { IsTested pages bytes.now result.0 }
    ensures restored { OnOk result.0 (IsTrue (D.moment disk).state.honest
        → IfSome (D.moment disk).state.seen (λ _. IsRestoredFrom bytes.now (D.moment result.1))) }
    ensures same { DiskGoesOn (D.moment disk).state (D.moment result.1).state }
    ensures fault { IfErr result.0 (λ fault. IsRestoreFault fault (D.moment disk) (D.moment result.1)) }
{
    match tested(alloc, bytes, pages) {
        Ok(arrays) => make(alloc, bytes, arrays.as_slice(), disk),
        Err(fault) => (Err(fault), disk),
    }
}

/// Makes an empty disk the database of which a source gives the backup, in at most so many pages.
///
/// The source is read to its end and all of its bytes are tested before the first page is written.
/// Refused are, in this order, a disk that isn't empty, bytes that are no backup, and a database
/// that needs more pages than are free: those but for page 0, the two pages of a new file, and one
/// in reserve. After any other refusal but one of the source nothing is said of the disk's bytes.
pub fn restore<S: Source, D: Disk>(
    alloc: Global,
    source: &mut S,
    mut disk: D,
    pages: u32,
) -> (Result<(), RestoreFault>, D)
    // Only an empty disk is written.
    ensures measured { IfSome (D.moment disk).state.seen (λ file. IsMeasured file result.0) }
    // What the bytes of the source are refused by.
    ensures tested { IfSome (S.state source.old).left (λ bytes. IsTested pages bytes result.0) }
    // The bytes are a database's backup, and whatever a crash leaves is that database.
    ensures restored { OnOk result.0 (IsTrue (D.moment disk).state.honest
        → IfSome (D.moment disk).state.seen (λ _. IsRestored (S.state source.old) (S.state source.new) (D.moment result.1))) }
    ensures kept { IfErr result.0 (λ fault. WhereUnwritten fault (OnlySyncs (D.moment disk) (D.moment result.1))) }
    ensures read { HasRead (S.state source.old) (S.state source.new) result.0 }
    ensures same { DiskGoesOn (D.moment disk).state (D.moment result.1).state }
    ensures cause { IfErr result.0 (λ fault. HasCause fault (S.state source.old) (S.state source.new) (D.moment disk).state (D.moment result.1).state) }
{
    match measure(&mut disk) {
        Ok(()) => match read_to_end(alloc, source) {
            Ok(bytes) => restore_bytes(alloc, bytes.as_slice(), disk, pages),
            Err(fault) => (Err(fault), disk),
        },
        Err(fault) => (Err(fault), disk),
    }
}
