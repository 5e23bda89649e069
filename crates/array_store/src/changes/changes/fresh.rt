//! The test of a change.
ghost use Rattle.std.specs.Prelude.{◌≡◌};
ghost use Rattle.std.specs.List.{list_all};
ghost use Rattle.array_store.specs.Fresh.{leaves_change, is_fresh};

use crate::changes::changes::names::has_name;
use event_core::Entry;
use logical_plan::Names;
use plan_changes::{Change, changed_name};

/// Whether an entry is no commit about an array that a change reads or is about.
fn leaves_change(change: &Change, entry: &Entry) -> bool
    ensures { result ≡ leaves_change change.now entry.now }
{
    match entry {
        Entry::Commit { change: other, .. } => !has_name(change, changed_name(other)),
        Entry::Pin { .. } => true,
        Entry::Unpin { .. } => true,
        Entry::Reap => true,
    }
}

/// Whether no entry is such a commit.
fn leave_change(later: &[Entry], change: &Change) -> bool
    ensures { result ≡ list_all (leaves_change change.now) later.now }
{
    later.iter().all(|entry| leaves_change(change, entry))
}

/// Whether a change that was computed over some names may be committed after later entries, the oldest first, over these: none of them is
/// a commit about an array that it reads or is about, and as many arrays stand. This takes no memory.
pub fn is_fresh(later: &[Entry], now: &Names, before: &Names, change: &Change) -> bool
    ensures { result ≡ is_fresh later.now now.now before.now change.now }
{
    leave_change(later, change) && now.arrays.len() == before.arrays.len()
}
