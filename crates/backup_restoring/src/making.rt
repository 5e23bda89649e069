//! Making a file of what was read.
ghost use Rattle.std.specs.Prelude.{◌≡◌, ◌+◌, ◌≤◌, ◌^◌, ◌↔◌, IfSome, IfOk, IfErr, IsTrue, OnOk};
ghost use Rattle.afl_outside.specs.Disk.{DiskGoesOn};
ghost use Rattle.page_chain.specs.Puts.{OnlySyncs};
ghost use Rattle.page_file.specs.Start.{first_root};
ghost use Rattle.backup_format.specs.PiecePlaces.{arrays_in};
ghost use Rattle.backup_restoring.specs.Restores.{restore_pages, IsMeasured};
ghost use Rattle.backup_restoring.specs.Inner.Making.{init_fault, open_fault, FailsMade, FailsNew, IsMeasureFault, OpensMade};
ghost use Rattle.backup_restoring.specs.Inner.Writing.{Closes, Fails, IsMade, IsNewFile, Makes, OpensNew};

use crate::arrays::write_arrays;
use crate::base::write_base;
use crate::fault::RestoreFault;
use afl_outside::{Disk, Failed, has_risen};
use backup_format::ArrayAt;
use page_chain::{OpenCause, Root};
use page_file::{InitFault, PageFile, init};
use std::alloc::Global;

/// The first page behind those of a new file.
const FIRST: u32 = 3;

/// The length of an empty file.
pub(crate) fn measure<D: Disk>(disk: &mut D) -> Result<(), RestoreFault>
    ensures measured { IfSome (D.moment disk.old).state.seen (λ file. IsMeasured file result) }
    ensures reads { OnlySyncs (D.moment disk.old) (D.moment disk.new) }
    ensures fault { IfErr result (λ fault. IsMeasureFault fault (D.moment disk.old).state (D.moment disk.new).state) }
{
    let before = disk.faults();
    match disk.len() {
        Ok(length) => {
            if length == 0 {
                Ok(())
            } else {
                Err(RestoreFault::NotEmpty { length })
            }
        }
        Err(Failed) if has_risen(before, disk.faults()) => Err(RestoreFault::Disk),
        Err(Failed) => Err(RestoreFault::Memory),
    }
}

/// Whether a root is that of a new file.
fn is_first(root: Root) -> bool
    ensures { IsTrue result ↔ (root ≡ first_root.root) }
{
    root.sequence == 1 && root.length == 4 && root.first == 1 && root.log == 2
}

fn init_fault(fault: InitFault) -> RestoreFault
    ensures { result ≡ init_fault fault }
{
    match fault {
        InitFault::Disk => RestoreFault::Disk,
        InitFault::NotEmpty { length } => RestoreFault::NotEmpty { length },
        InitFault::Memory => RestoreFault::Memory,
    }
}

fn open_fault(cause: OpenCause) -> RestoreFault
    ensures { result ≡ open_fault cause }
{
    match cause {
        OpenCause::Disk => RestoreFault::Disk,
        OpenCause::NotDatabase { page } => RestoreFault::NotDatabase { page },
        OpenCause::Memory => RestoreFault::Memory,
    }
}

/// Opens the new file that a disk was made, whose root is that of a new file.
fn open_new<D: Disk>(disk: D) -> Result<PageFile<D>, (RestoreFault, D)>
    ensures opened { IfOk result (λ file. OpensMade (D.moment disk) file.slots (D.moment file.disk)) }
    ensures fault { IfErr result (λ x. FailsMade x.0 (D.moment disk) (D.moment x.1)) }
{
    match PageFile::open(disk) {
        Ok(file) => {
            if is_first(file.root()) {
                Ok(file)
            } else {
                Err((RestoreFault::NotDatabase { page: 0 }, file.close()))
            }
        }
        Err((cause, disk)) => Err((open_fault(cause), disk)),
    }
}

/// Makes an empty disk a new file.
fn new_file<D: Disk>(mut disk: D) -> Result<PageFile<D>, (RestoreFault, D)>
    ensures opened { IfOk result (λ file. OpensNew (D.moment disk) file.slots (D.moment file.disk)) }
    ensures fault { IfErr result (λ x. FailsNew x.0 (D.moment disk) (D.moment x.1)) }
{
    match init(&mut disk) {
        Ok(()) => open_new(disk),
        Err(fault) => Err((init_fault(fault), disk)),
    }
}

/// Aims at the root slot that isn't current, and closes it.
fn close<D: Disk>(file: &mut PageFile<D>) -> Result<(), RestoreFault>
    requires { IsNewFile file.old.slots }
    ensures closed { OnOk result (Closes file.old.slots file.new.slots (D.moment file.old.disk) (D.moment file.new.disk)) }
    ensures fault { IfErr result (λ fault. Fails fault (D.moment file.old.disk).state (D.moment file.new.disk).state) }
{
    let other = file.other_root();
    file.aim(other);
    let before = file.faults();
    match file.close_slot() {
        Ok(()) => Ok(()),
        Err(Failed) if has_risen(before, file.faults()) => Err(RestoreFault::Disk),
        Err(Failed) => Err(RestoreFault::Memory),
    }
}

/// Fills a new file with what these arrays have.
fn fill<D: Disk>(
    alloc: Global,
    file: &mut PageFile<D>,
    whole: &[u8],
    arrays: &[ArrayAt],
) -> Result<(), RestoreFault>
    requires new { IsNewFile file.old.slots }
    requires room { 3 + restore_pages (arrays_in whole.now arrays.now) ≤ 2 ^ 32 }
    ensures made { OnOk result (Makes (arrays_in whole.now arrays.now) file.old.slots (D.moment file.old.disk) (D.moment file.new.disk)) }
    ensures fault { IfErr result (λ fault. Fails fault (D.moment file.old.disk).state (D.moment file.new.disk).state) }
{
    match close(file) {
        Ok(()) => match write_arrays(alloc, file, whole, FIRST, arrays) {
            Ok((catalog, next)) => write_base(alloc, file, catalog, next),
            Err(fault) => Err(fault),
        },
        Err(fault) => Err(fault),
    }
}

/// Makes an empty disk the database of these arrays.
pub(crate) fn make<D: Disk>(
    alloc: Global,
    whole: &[u8],
    arrays: &[ArrayAt],
    disk: D,
) -> (Result<(), RestoreFault>, D)
    requires room { 3 + restore_pages (arrays_in whole.now arrays.now) ≤ 2 ^ 32 }
    ensures made { OnOk result.0 (IsTrue (D.moment disk).state.honest
        → IfSome (D.moment disk).state.seen (λ _. IsMade (arrays_in whole.now arrays.now) (D.moment result.1))) }
    ensures same { DiskGoesOn (D.moment disk).state (D.moment result.1).state }
    ensures fault { IfErr result.0 (λ fault. FailsNew fault (D.moment disk) (D.moment result.1)) }
{
    match new_file(disk) {
        Ok(mut file) => {
            let answer = fill(alloc, &mut file, whole, arrays);
            (answer, file.close())
        }
        Err((fault, disk)) => (Err(fault), disk),
    }
}
