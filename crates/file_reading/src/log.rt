//! The log of a file.
ghost use Rattle.std.specs.Prelude.{◌≡◌, ◌<◌, ◌≤◌, ℕ, List, ◌∷◌, ◌++◌, [], length, slice_index_or, Some, Ok, OnOk, IsErrOf};
ghost use Rattle.afl_outside.specs.Counts.{Rose};
ghost use Rattle.page_chain.specs.Inner.Runs.{OnlyReads};
ghost use Rattle.page_chain.specs.declared.slots.layout.logs.RecordAt.{RecordAt};
ghost use Rattle.version_catalog.specs.Catalogs.{IsCatalog};
ghost use Rattle.file_meaning.specs.Opening.{all_of, logged_in};
ghost use Rattle.file_reading.specs.Inner.Log.{GoesOn, behind_log};
ghost use Rattle.file_reading.specs.Inner.Taken.{HaveAll};

use crate::base::read_record;
use afl_outside::Disk;
use cell_values::{List, Memory};
use page_file::{OpenCause, PageFile};
use std::alloc::Global;
use version_catalog::Catalog;

/// Puts a record's pages behind those of the records before, and before all that are taken.
fn keep_pages(
    pages: List<u32>,
    taken: &mut List<u32>,
    logged: &mut List<List<u32>>,
) -> Result<(), Memory>
    ensures taken { OnOk result (taken.new ≡ pages ++ taken.old) }
    ensures logged { OnOk result (logged.new ≡ logged.old ++ pages ∷ []) }
{
    let mut now = pages.copy()?;
    now.extend(taken.as_slice())?;
    *taken = now;
    logged.push(pages)
}

/// Reads a record, applies it to the catalogue, and keeps its pages.
fn read_logged<D: Disk>(
    alloc: Global,
    file: &mut PageFile<D>,
    number: u32,
    catalog: &mut Catalog,
    taken: &mut List<u32>,
    logged: &mut List<List<u32>>,
) -> Result<(), OpenCause>
    requires number { number < length file.old.slots.records }
    requires rules { IsCatalog catalog.old }
    ensures exact { (seen : List ℕ) → (D.moment file.old.disk).state.seen ≡ Some seen → (d : RecordAt) (later : List RecordAt)
        → GoesOn result
        (behind_log logged.new (logged_in seen file.old.slots.current.root.log taken.new catalog.new later))
        (behind_log logged.old (logged_in seen file.old.slots.current.root.log taken.old catalog.old
        (slice_index_or file.old.slots.records number d ∷ later))) }
    ensures rules { OnOk result (IsCatalog catalog.new) }
    ensures held { OnOk result ((others : List ℕ) → HaveAll taken.old (others ++ all_of logged.old) → HaveAll taken.new (others ++ all_of logged.new)) }
    ensures fault { IsErrOf result OpenCause.Disk → Rose (D.moment file.old.disk).state.faults (D.moment file.new.disk).state.faults }
    ensures slots { file.new.slots ≡ file.old.slots }
    ensures reads { OnlyReads (D.moment file.old.disk) (D.moment file.new.disk) }
{
    match read_record(alloc, file, number, taken.as_slice(), catalog) {
        Ok(pages) => match keep_pages(pages, taken, logged) {
            Ok(()) => Ok(()),
            Err(Memory) => Err(OpenCause::Memory),
        },
        Err(cause) => Err(cause),
    }
}

/// Reads the records of the log, one after the other, and applies them to the catalogue.
pub(crate) fn read_log<D: Disk>(
    alloc: Global,
    file: &mut PageFile<D>,
    catalog: &mut Catalog,
    taken: &mut List<u32>,
    logged: &mut List<List<u32>>,
) -> Result<(), OpenCause>
    requires few { length file.old.slots.records ≤ 64 }
    requires rules { IsCatalog catalog.old }
    ensures exact { (seen : List ℕ) → (D.moment file.old.disk).state.seen ≡ Some seen
        → GoesOn result
        (Ok (record { pages = logged.new; catalog = catalog.new; taken = taken.new }))
        (behind_log logged.old (logged_in seen file.old.slots.current.root.log taken.old catalog.old file.old.slots.records)) }
    ensures rules { OnOk result (IsCatalog catalog.new) }
    ensures held { OnOk result ((others : List ℕ) → HaveAll taken.old (others ++ all_of logged.old) → HaveAll taken.new (others ++ all_of logged.new)) }
    ensures fault { IsErrOf result OpenCause.Disk → Rose (D.moment file.old.disk).state.faults (D.moment file.new.disk).state.faults }
    ensures slots { file.new.slots ≡ file.old.slots }
    ensures reads { OnlyReads (D.moment file.old.disk) (D.moment file.new.disk) }
{
    let count = file.records().len() as u32;
    for number in 0..count {
        match read_logged(alloc, file, number, catalog, taken, logged) {
            Ok(()) => {}
            Err(cause) => return Err(cause),
        }
    }
    Ok(())
}
