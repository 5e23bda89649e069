//! Reaps.
ghost use Rattle.std.specs.Prelude.{◌≡◌, ◌≤◌, ◌<◌, ◌+◌, ◌-◌, ◌^◌, [], ◌∷◌, ◌++◌, length, if◌then◌else◌, vec_capacity, IfOk, OnOk, OnErr, IsTrue};
ghost use Rattle.store_versions.specs.Entry.TheVariants.{Reap};
ghost use Rattle.store_versions.specs.Replay.{core_after};
ghost use Rattle.store_ledger.specs.Ledger.{MayReap, has_room, reap_comes, with_entries};

use crate::Ledger;
use cell_values::Memory;
use store_versions::{Entry, LeanCore};

/// A reap in the core and behind the entries, and room for so many entries more than stood.
fn append_reap(core: &mut LeanCore, entries: &mut Vec<Entry>, count: usize) -> Result<(), Memory>
    requires small { core.old.core.entries < 2 ^ 64 - 1 }
    requires some { 0 < count }
    ensures core { OnOk result (core.new.core ≡ core_after core.old.core Reap) }
    ensures entries { OnOk result (entries.new.items ≡ entries.old.items ++ Reap ∷ []) }
    ensures room { OnOk result (length entries.old.items + count ≤ vec_capacity entries.new) }
    ensures grows { vec_capacity entries.old ≤ vec_capacity entries.new }
    ensures versions { core.new.room ≡ core.old.room }
    ensures err { OnErr result ((core.new.core ≡ core.old.core) × (entries.new.items ≡ entries.old.items)) }
{
    entries.reserve(count)?;
    core.reap()?;
    entries.push_reserved(Entry::Reap);
    Ok(())
}

impl Ledger {
    /// Whether some page would become free, and the history has room for that.
    fn reap_comes(&mut self) -> bool
        ensures comes { result ≡ reap_comes self.old }
        ensures same { self.new ≡ self.old }
    {
        self.has_room(1) && self.core.would_free(&mut self.pages)
    }

    /// All pages that nobody can name become free, if that frees one and the history has room for it. The answer tells whether.
    pub fn reap(&mut self) -> Result<bool, Memory>
        ensures comes { IfOk result (λ comes. comes ≡ reap_comes self.old) }
        ensures ok { IfOk result (λ comes. self.new ≡ (if comes then with_entries (Reap ∷ []) self.old else self.old)) }
        ensures err { OnErr result (self.new ≡ self.old) }
    {
        if !self.reap_comes() {
            return Ok(false);
        }
        // No pin takes more than twice as many entries as it reserves.
        let count = 2 * self.reserved as usize + 1;
        append_reap(&mut self.core, &mut self.entries, count)?;
        Ok(true)
    }

    /// All pages that nobody can name become free, whether that frees one or not.
    pub fn reap_now(&mut self) -> Result<(), Memory>
        requires room { IsTrue (has_room self.old 1) }
        requires cause { MayReap self.old }
        ensures ok { OnOk result (self.new ≡ with_entries (Reap ∷ []) self.old) }
        ensures err { OnErr result (self.new ≡ self.old) }
    {
        // No pin takes more than twice as many entries as it reserves.
        let count = 2 * self.reserved as usize + 1;
        append_reap(&mut self.core, &mut self.entries, count)?;
        Ok(())
    }
}
