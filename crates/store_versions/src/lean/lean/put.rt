//! The second half of a commit, which takes no memory.
ghost use Rattle.std.specs.Prelude.{◌≡◌, ◌<◌, ◌≤◌, ◌+◌, ◌-◌, ◌^◌, ℕ, List as Items, vec_capacity, vec_len};
ghost use Rattle.plan_changes.specs.Names.{Names};
ghost use Rattle.event_core.specs.declared.entry.Entry.TheVariants.{Commit};
ghost use Rattle.event_core.specs.declared.state.VersionPages.{VersionPages};
ghost use Rattle.event_core.specs.History.{pages_after};
ghost use Rattle.event_core.specs.Ready.{IsReadyOver};
ghost use Rattle.event_core.specs.Replay.{core_after};
ghost use Rattle.store_versions.specs.LeanRows.{rows_after};

use crate::lean::lean::row::Row;
use crate::lean::lean::rows::{add_last, end_array, end_below};
use crate::lean::lean::{LeanCore, LeanReady};
use cell_values::List;
use event_core::{Core, VersionPages};
use plan_changes::Change;

/// The rows after the commit of a change at a place. The versions are some before it, and the one that it made.
fn change_rows(rows: &mut Vec<Row>, change: &Change, versions: List<VersionPages>, place: u64)
    requires room { vec_len rows.old < vec_capacity rows.old }
    requires place { place < 2 ^ 64 - 1 }
    requires made { (names : Names) × (used : Items ℕ) × (before : Items VersionPages) × (versions ≡ pages_after names change.now used before) }
    ensures rows { (names : Names) (used : Items ℕ) (before : Items VersionPages) → versions ≡ pages_after names change.now used before
        → rows.new.items ≡ rows_after names place change.now used rows.old.items }
    ensures room { vec_capacity rows.new ≡ vec_capacity rows.old }
    ensures more { vec_len rows.new ≤ vec_len rows.old + 1 }
{
    match change {
        Change::Create { .. } => drop(versions),
        Change::Store { .. } => add_last(rows, versions, place),
        Change::Insert { .. } => add_last(rows, versions, place),
        Change::Remove { name } => {
            drop(versions);
            end_array(rows.as_mut_slice(), name, place);
        }
        Change::RemoveVersions { name, below } => {
            drop(versions);
            end_below(rows.as_mut_slice(), name, *below, place);
        }
    }
}

impl LeanCore {
    /// The commit that was made ready. This takes no memory.
    pub fn put(&mut self, session: u32, commit: LeanReady, change: &Change)
        requires small { self.old.core.entries < 2 ^ 64 - 1 }
        requires over { IsReadyOver commit self.old.core }
        requires change { change.now ≡ commit.change }
        requires room { 0 < self.old.room }
        ensures core { self.new.core ≡ core_after self.old.core (Commit session commit.change commit.used) }
        ensures room { self.old.room ≤ self.new.room + 1 }
    {
        let LeanReady {
            lean: _,
            ready,
            mut part,
        } = commit;
        part.free = self.free.take();
        part.put(session, ready);
        let Core {
            names,
            pages,
            catalogue,
            pins,
            free,
            ..
        } = part;
        drop(pins);
        change_rows(&mut self.rows, change, pages, self.entries);
        self.names = names;
        self.catalogue = catalogue;
        self.free = free;
        self.entries += 1;
    }
}
