//! What is read of a file before a store's parts are put together.
ghost use Rattle.std.specs.Prelude.{◌≡◌, ◌≤◌, ℕ, List, length, IfSome, IfOk, IfErr, IsErrOf};
ghost use Rattle.afl_outside.specs.Counts.{Rose};
ghost use Rattle.page_chain.specs.Inner.Runs.{OnlyReads};
ghost use Rattle.page_chain.specs.Standing.{IsSound};
ghost use Rattle.version_catalog.specs.Catalogs.{names_in};
ghost use Rattle.event_core.specs.History.{names_at};
ghost use Rattle.file_meaning.specs.Opening.{found_in};
ghost use Rattle.file_reading.specs.Reading.{IsFound, slots_of};
ghost use Rattle.store_ledger.specs.Ledger.{history};
ghost use Rattle.store_opening.specs.Inner.Read.{AreFound, AreOf, HasTable, StopsBy, new_ledger};

use crate::bases::base_of;
use crate::opening::Limits;
use afl_outside::Disk;
use cell_values::Memory;
use file_meaning::{Found, let_go_catalog, let_go_found};
use file_reading::read_found;
use page_file::{OpenCause, PageFile};
use std::alloc::Global;
use store_ledger::{Ledger, let_go_ledger};
use store_versions::VersionTable;
use version_catalog::Catalog;

/// The ledger, the catalogue and the versions of a file.
#[derive(Drop)]
pub(crate) struct ReadParts {
    pub ledger: Ledger,
    pub catalog: Catalog,
    pub table: VersionTable,
}

/// The ledger of a store without entries.
fn ledger_of(alloc: Global, found: &Found, log: u32, limits: Limits) -> Result<Ledger, Memory>
    requires { IsFound found.now }
    ensures { IfOk result (λ ledger. ledger ≡ new_ledger found.now log limits) }
{
    match base_of(alloc, found, log, limits.pages) {
        Ok(base) => Ledger::new(alloc, base, limits.history),
        Err(want) => Err(want),
    }
}

/// The ledger with the catalogue, and with the versions, which take the directories over.
fn with_table(ledger: Ledger, found: Found) -> Result<ReadParts, Memory>
    requires { names_at ledger.base (history ledger) ≡ names_in found.catalog }
    ensures { IfOk result (HasTable ledger found) }
{
    let Found {
        chain,
        logged,
        catalog,
        directories,
    } = found;
    drop(chain);
    drop(logged);
    match VersionTable::new(ledger.names(), directories) {
        Ok(table) => Ok(ReadParts {
            ledger,
            catalog,
            table,
        }),
        Err(want) => {
            let_go_catalog(catalog);
            let_go_ledger(ledger);
            Err(want)
        }
    }
}

/// What a store keeps of what is found.
fn parts_of(alloc: Global, found: Found, log: u32, limits: Limits) -> Result<ReadParts, Memory>
    requires { IsFound found }
    ensures { IfOk result (AreOf found log limits) }
{
    match ledger_of(alloc, &found, log, limits) {
        Ok(ledger) => with_table(ledger, found),
        Err(want) => {
            let_go_found(found);
            Err(want)
        }
    }
}

/// Reads what a store keeps of its file.
pub(crate) fn read_parts<D: Disk>(
    alloc: Global,
    file: &mut PageFile<D>,
    limits: Limits,
) -> Result<ReadParts, OpenCause>
    requires { length file.old.slots.records ≤ 64 }
    ensures found { IfOk result (AreFound (D.moment file.old.disk).state.seen file.old.slots limits) }
    ensures wrong { IfErr result (λ cause. IfSome (D.moment file.old.disk).state.seen (λ seen. StopsBy (found_in seen (slots_of file.old.slots)) cause)) }
    ensures fault { IsErrOf result OpenCause.Disk → Rose (D.moment file.old.disk).state.faults (D.moment file.new.disk).state.faults }
    ensures slots { file.new.slots ≡ file.old.slots }
    ensures reads { OnlyReads (D.moment file.old.disk) (D.moment file.new.disk) }
    ensures sound { (seen : List ℕ) → IsSound file.old.slots seen (D.moment file.old.disk).may_leave
        → IsSound file.new.slots seen (D.moment file.new.disk).may_leave }
{
    let log = file.root().log;
    match read_found(alloc, file) {
        Ok(found) => match parts_of(alloc, found, log, limits) {
            Ok(parts) => Ok(parts),
            Err(Memory) => Err(OpenCause::Memory),
        },
        Err(cause) => Err(cause),
    }
}
