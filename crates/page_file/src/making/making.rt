//! The first pages of a file.
ghost use Rattle.std.specs.Prelude.{◌≡◌, ◌≢◌, ℕ, List, length, Some, IfSome, IfErr, IsTrue, OnOk};
ghost use Rattle.page_chain.specs.Disk.{DiskGoesOn, FailsWithCause, Only};
ghost use Rattle.page_chain.specs.Puts.{OnlySyncs};
ghost use Rattle.page_file.specs.Start.{IsEmptyDatabase, IsInit, HasCause, IsDeviceFault, WhereNotEmpty};
ghost use Rattle.page_file.specs.Inner.Laid.{Lays, laid, made};

use crate::making::InitFault;
use page_chain::{Disk, Failed, PAGE, Root, Side, has_risen, root_body};

/// `AFLSTORE`, and the format 2.
const HEAD: [u8; 12] = [65, 70, 76, 83, 84, 79, 82, 69, 2, 0, 0, 0];

/// A catalogue of no array in page 1, and the log page 2.
const FIRST: Root = Root {
    sequence: 1,
    length: 4,
    first: 1,
    log: 2,
};

/// Writes zeros up to the end of the third page, then the head of page 0 and the body of slot A.
fn lay<D: Disk>(disk: &mut D, body: &[u8]) -> Result<(), Failed>
    ensures laid { OnOk result (Lays (laid body.now) (D.moment disk.old).state (D.moment disk.new).state) }
    ensures same { DiskGoesOn (D.moment disk.old).state (D.moment disk.new).state }
    ensures cause { FailsWithCause result (D.moment disk.old) (D.moment disk.new) }
{
    match disk.write_at(3 * PAGE as u64 - 1, &[0]) {
        Ok(()) => {}
        Err(Failed) => return Err(Failed),
    }
    match disk.write_at(0, &HEAD) {
        Ok(()) => {}
        Err(Failed) => return Err(Failed),
    }
    match disk.write_at(Side::A.body() as u64, body) {
        Ok(()) => Ok(()),
        Err(Failed) => Err(Failed),
    }
}

/// Writes page 0 with closed slots, and then opens slot A. Each of the two is synced.
fn make<D: Disk>(disk: &mut D, body: &[u8]) -> Result<(), Failed>
    ensures made { OnOk result (IsTrue (D.moment disk.old).state.honest
        → IfSome (D.moment disk.old).state.seen (λ seen. ((D.moment disk.new).state.seen ≡ Some (made body.now seen))
        × Only (made body.now seen) (D.moment disk.new).may_leave)) }
    ensures same { DiskGoesOn (D.moment disk.old).state (D.moment disk.new).state }
    ensures cause { FailsWithCause result (D.moment disk.old) (D.moment disk.new) }
{
    match lay(disk, body) {
        Ok(()) => {}
        Err(Failed) => return Err(Failed),
    }
    match disk.sync() {
        Ok(()) => {}
        Err(Failed) => return Err(Failed),
    }
    match disk.write_at(Side::A.gate() as u64, &[2]) {
        Ok(()) => {}
        Err(Failed) => return Err(Failed),
    }
    match disk.sync() {
        Ok(()) => Ok(()),
        Err(Failed) => Err(Failed),
    }
}

/// The length of an empty file.
fn measure<D: Disk>(disk: &mut D) -> Result<(), InitFault>
    ensures init { IfSome (D.moment disk.old).state.seen (λ seen. IsInit seen result) }
    ensures reads { OnlySyncs (D.moment disk.old) (D.moment disk.new) }
    ensures cause { IfErr result (λ fault. HasCause fault (D.moment disk.old).state (D.moment disk.new).state) }
{
    let before = disk.faults();
    match disk.len() {
        Ok(length) => {
            if length == 0 {
                Ok(())
            } else {
                Err(InitFault::NotEmpty { length })
            }
        }
        Err(Failed) if has_risen(before, disk.faults()) => Err(InitFault::Disk),
        Err(Failed) => Err(InitFault::Memory),
    }
}

fn make_first<D: Disk>(disk: &mut D) -> Result<(), InitFault>
    ensures made { OnOk result (IsTrue (D.moment disk.old).state.honest
        → IfSome (D.moment disk.old).state.seen (λ seen. length seen ≡ 0
        → (file : List ℕ) × ((D.moment disk.new).state.seen ≡ Some file) × IsEmptyDatabase file × Only file (D.moment disk.new).may_leave)) }
    ensures same { DiskGoesOn (D.moment disk.old).state (D.moment disk.new).state }
    ensures cause { IfErr result (λ fault. IsDeviceFault fault (D.moment disk.old).state (D.moment disk.new).state) }
{
    let before = disk.faults();
    match make(disk, &root_body(FIRST)) {
        Ok(()) => Ok(()),
        Err(Failed) if has_risen(before, disk.faults()) => Err(InitFault::Disk),
        Err(Failed) => Err(InitFault::Memory),
    }
}

/// Makes an empty file a database with no array. Whatever a crash leaves afterwards is that database. A file that is not empty stays
/// as it is, also where the disk fails.
pub fn init<D: Disk>(disk: &mut D) -> Result<(), InitFault>
    ensures init { IfSome (D.moment disk.old).state.seen (λ seen. IsInit seen result) }
    ensures made { OnOk result (IsTrue (D.moment disk.old).state.honest
        → IfSome (D.moment disk.old).state.seen (λ _. (file : List ℕ) × ((D.moment disk.new).state.seen ≡ Some file)
        × IsEmptyDatabase file × Only file (D.moment disk.new).may_leave)) }
    ensures kept { IfErr result (λ fault. WhereNotEmpty fault (OnlySyncs (D.moment disk.old) (D.moment disk.new))) }
    ensures not_written { IfSome (D.moment disk.old).state.seen (λ seen. length seen ≢ 0 → OnlySyncs (D.moment disk.old) (D.moment disk.new)) }
    ensures same { DiskGoesOn (D.moment disk.old).state (D.moment disk.new).state }
    ensures cause { IfErr result (λ fault. HasCause fault (D.moment disk.old).state (D.moment disk.new).state) }
{
    match measure(disk) {
        Ok(()) => make_first(disk),
        Err(fault) => Err(fault),
    }
}
