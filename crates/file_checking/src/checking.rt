//! Checking a file.
ghost use Rattle.std.specs.Prelude.{◌≡◌, ◌≤◌, ℕ, List as Items, length, Some, Ok, IfSome, IfOk, IfErr};
ghost use Rattle.page_chain.specs.Inner.Runs.{OnlyReads};
ghost use Rattle.page_chain.specs.Opens.{OpensAs};
ghost use Rattle.page_chain.specs.Puts.{OnlySyncs};
ghost use Rattle.plan_changes.specs.Databases.{Database};
ghost use Rattle.file_meaning.specs.Opening.{opened};
ghost use Rattle.file_meaning.specs.Standing.{Stands};
ghost use Rattle.file_reading.specs.Reading.{IsFound};
ghost use Rattle.file_checking.specs.Checks.{checked, sound_database, Answers, HasCause};
ghost use Rattle.file_checking.specs.Inner.Steps.{fault_by, IsAnswer};

use crate::counting::sound_of;
use crate::sound::{CheckFault, Sound};
use crate::versions::check_rows;
use afl_outside::Disk;
use file_meaning::{Found, let_go_found};
use file_reading::read_found;
use page_file::{OpenCause, PageFile};
use std::alloc::Global;

fn fault_of(cause: OpenCause) -> CheckFault
    ensures { result ≡ fault_by cause }
{
    match cause {
        OpenCause::Disk => CheckFault::Disk,
        OpenCause::NotDatabase { page } => CheckFault::NotDatabase { page },
        OpenCause::Memory => CheckFault::Memory,
    }
}

/// Checks what was found in a file.
fn check_found<D: Disk>(
    alloc: Global,
    file: &mut PageFile<D>,
    found: &Found,
) -> Result<Sound, CheckFault>
    requires { IsFound found.now }
    ensures told { (seen : Items ℕ) → (D.moment file.old.disk).state.seen ≡ Some seen → opened seen ≡ Ok found.now → IsAnswer seen result }
    ensures reads { OnlyReads (D.moment file.old.disk) (D.moment file.new.disk) }
    ensures cause { IfErr result (λ fault. HasCause fault (D.moment file.old.disk).state (D.moment file.new.disk).state) }
{
    let mut wrong = None;
    match check_rows(
        alloc,
        file,
        found.catalog.arrays.as_slice(),
        found.directories.as_slice(),
        &mut wrong,
    ) {
        Ok(()) => match wrong {
            None => Ok(sound_of(found)),
            Some(page) => Err(CheckFault::WrongOverlap { page }),
        },
        Err(fault) => Err(fault),
    }
}

/// Checks an open file.
fn check_opened<D: Disk>(alloc: Global, file: &mut PageFile<D>) -> Result<Sound, CheckFault>
    requires few { length file.old.slots.records ≤ 64 }
    requires opens { IfSome (D.moment file.old.disk).state.seen (OpensAs file.old.slots.current file.old.slots.records) }
    ensures told { IfSome (D.moment file.old.disk).state.seen (λ seen. IsAnswer seen result) }
    ensures reads { OnlyReads (D.moment file.old.disk) (D.moment file.new.disk) }
    ensures cause { IfErr result (λ fault. HasCause fault (D.moment file.old.disk).state (D.moment file.new.disk).state) }
{
    match read_found(alloc, file) {
        Ok(found) => {
            let answer = check_found(alloc, file, &found);
            let_go_found(found);
            answer
        }
        Err(cause) => Err(fault_of(cause)),
    }
}

/// Checks the file of a disk, and hands the disk back: opens it, reads all payloads, and compares
/// all overlaps with the cells of their neighbours. The first fault is told, by the page at which
/// it is: a wrong overlap only where all payloads are whole.
pub fn check_file<D: Disk>(alloc: Global, disk: D) -> (Result<Sound, CheckFault>, D)
    // What it answers, where the disk tells its bytes.
    ensures exact { IfSome (D.moment disk).state.seen (λ seen. Answers result.0 (checked seen)) }
    // A file that is sound stands for a database of so many arrays, versions and chunks.
    ensures stands { IfSome (D.moment disk).state.seen (λ seen. IfOk result.0 (λ sound. (db : Database) × Stands seen db × (sound ≡ sound_database db))) }
    // A file that stands for a database is sound.
    ensures sound { IfSome (D.moment disk).state.seen (λ seen. (db : Database) → Stands seen db → Answers result.0 (Ok (sound_database db))) }
    ensures reads { OnlySyncs (D.moment disk) (D.moment result.1) }
    ensures cause { IfErr result.0 (λ fault. HasCause fault (D.moment disk).state (D.moment result.1).state) }
{
    match PageFile::open(disk) {
        Ok(mut file) => {
            let answer = check_opened(alloc, &mut file);
            (answer, file.close())
        }
        Err((cause, disk)) => (Err(fault_of(cause)), disk),
    }
}
