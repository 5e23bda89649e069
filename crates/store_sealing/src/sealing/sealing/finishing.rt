//! The end of a commit, once its writes were done or stopped.
ghost use Rattle.std.specs.Prelude.{◌≡◌, ◌<◌, length, map, vec_capacity, false, IsTrue};
ghost use Rattle.event_core.specs.declared.entry.Entry.TheVariants.{Commit};
ghost use Rattle.event_core.specs.Allowed.{allows};
ghost use Rattle.event_core.specs.History.{names_at};
ghost use Rattle.event_core.specs.Legal.{has_committed};
ghost use Rattle.event_core.specs.Ready.{IsReadyOver};
ghost use Rattle.event_core.specs.Replay.{core_at};
ghost use Rattle.store_ledger.specs.Ledger.{has_room, history};
ghost use Rattle.store_versions.specs.Rows.{IsReadyFor, directory_in};
ghost use Rattle.store_sealing.specs.Inner.Ends.{EndsSo, held_of};

use crate::sealing::sealing::settling::settle;
use crate::sealing::sealing::stopping::stop;
use crate::sealing::sealing::writing::Outcome;
use afl_outside::Failed;
use plan_changes::Change;
use prepared_commits::Prepared;
use std::snapshot::Snapshot;
use store_ledger::Ledger;
use store_versions::{ReadyVersion, VersionTable};
use version_catalog::Catalog;

/// Moves what was prepared into its place, or, where writing it stopped, keeps the change that may be in doubt. The answer is the place of
/// its entry.
pub(crate) fn finish(
    ledger: &mut Ledger,
    catalog: &mut Catalog,
    table: &mut VersionTable,
    doubt: &mut Option<Change>,
    made: &mut Vec<Snapshot<Option<ReadyVersion>>>,
    prepared: Prepared,
    outcome: Outcome,
) -> Result<u64, Failed>
    requires over { IsReadyOver prepared.commit (core_at ledger.old.base (history ledger.old)) }
    requires allowed { IsTrue (allows ledger.old.base (history ledger.old)
        (Commit prepared.session prepared.commit.change prepared.commit.used)) }
    requires first { has_committed prepared.session (history ledger.old) ≡ false }
    requires room { IsTrue (has_room ledger.old 1) }
    requires version { IsReadyFor (names_at ledger.old.base (history ledger.old)) prepared.commit.change (length table.old.rows) prepared.version }
    requires made { length made.old.items < vec_capacity made.old }
    ensures { EndsSo outcome.end outcome.rose prepared
        (held_of ledger.old catalog.old table.old.rows doubt.old (map (λ ready. directory_in ready.value) made.old.items)) result
        (held_of ledger.new catalog.new table.new.rows doubt.new (map (λ ready. directory_in ready.value) made.new.items)) }
{
    let Outcome { end, rose } = outcome;
    match end {
        Ok(()) => Ok(settle(ledger, catalog, table, doubt, made, prepared, rose)),
        Err(stage) => {
            stop(ledger, doubt, prepared, stage, rose);
            Err(Failed)
        }
    }
}
