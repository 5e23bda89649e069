//! A commit over a store needs as many pages as its change costs. No code has to be run for it.

ghost use Rattle.std.specs.Prelude.{◌≡◌, Option};
ghost use Rattle.array_geom.specs.declared.chunk.Changed.{Changed};
ghost use Rattle.plan_changes.specs.declared.change.Change.{Change};
ghost use Rattle.plan_changes.specs.Databases.{Database};
ghost use Rattle.event_core.specs.Cells.{at};
ghost use Rattle.commit_pages.specs.Costs.{cost_from};
ghost use Rattle.store_ledger.specs.Ledger.{history};
ghost use Rattle.store_state.specs.At.{IsAt};
ghost use Rattle.store_state.specs.Standings.{Standing, BeganAs, base_of};
ghost use Rattle.store_state.specs.Inner.Keeping.{Keeping};
ghost use Rattle.prepared_commits.specs.Needs.{needs};
ghost use Rattle.prepared_commits.specs.Prepared.{IsAsked};

use afl_outside::Disk;
use commit_pages::commits_take_what_they_cost;
use store_state::{found_files_are_over, newest_are_last};

/// On an honest disk that began as a database, a commit needs as many pages as its change costs over the database of now.
pub fn commits_need_what_they_cost<D: Disk>()
    ensures { (s : Standing D) (k : Keeping) (change : Change) (changed : Option Changed) (db : Database) → IsAt D.moment s k
        → IsAsked D.moment s change changed → BeganAs (D.moment s.opened.disk).state db
        → needs s k change changed ≡ cost_from (base_of s).records (at db (history s.ledger)) (history s.ledger) change }
{
    commits_take_what_they_cost();
    found_files_are_over();
    newest_are_last();
}
