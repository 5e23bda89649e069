//! Whether a change may be committed now that was computed under a pin.
ghost use Rattle.std.specs.Prelude.{◌≡◌, ◌<◌, ◌+◌, ◌∷◌, ◌++◌, length, drop, IsTrue};
ghost use Rattle.event_core.specs.declared.entry.Entry.TheVariants.{Pin};
ghost use Rattle.event_core.specs.History.{History, names_at};
ghost use Rattle.array_store.specs.Fresh.{IsFresh, is_fresh};
ghost use Rattle.store_ledger.specs.Ledger.{IsOpenPin, history};

use crate::changes::is_fresh;
use crate::store::Store;
use afl_outside::Disk;
use event_core::Entry;
use plan_changes::Change;
use store_ledger::Pinned;

/// The entries behind the one at a place.
fn entries_behind(entries: &[Entry], place: u64) -> &[Entry]
    requires { place < length entries.now }
    ensures { result.now ≡ drop (place + 1) entries.now }
{
    &entries[place as usize + 1..]
}

impl<D: Disk> Store<D> {
    /// Whether a change that was computed under a pin may be committed now: since the pin no commit was about an array that it reads or is
    /// about, and as many arrays stand. This takes no memory.
    pub fn fresh(&self, pinned: &Pinned, change: &Change) -> bool
        requires { IsOpenPin self.now.ledger pinned.now }
        ensures result { result ≡ is_fresh (drop (pinned.now.place + 1) self.now.ledger.entries)
            (names_at self.now.ledger.base (history self.now.ledger)) pinned.now.names change.now }
        ensures same { IsTrue result → (later : History) (before : History) → history self.now.ledger ≡ later ++ Pin pinned.now.session ∷ before
            → length before ≡ pinned.now.place → IsFresh self.now.ledger.base later (Pin pinned.now.session ∷ before) change.now }
    {
        let later = entries_behind(self.parts.ledger.entries(), pinned.place);
        is_fresh(later, self.parts.ledger.names(), &pinned.names, change)
    }
}
