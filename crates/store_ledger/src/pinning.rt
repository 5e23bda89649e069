//! Pins and unpins.
ghost use Rattle.std.specs.Prelude.{◌≡◌, ◌≤◌, ◌<◌, ◌+◌, ◌-◌, ◌^◌, Bool, false, not, [], ◌∷◌, ◌++◌, length, vec_capacity, IfOk, IfErr, OnOk, OnErr, IsTrue};
ghost use Rattle.store_versions.specs.Entry.TheVariants.{Pin, Unpin};
ghost use Rattle.event_core.specs.Allowed.{is_pinned};
ghost use Rattle.store_versions.specs.History.{names_at};
ghost use Rattle.store_versions.specs.Replay.{core_after};
ghost use Rattle.store_ledger.specs.Ledger.{IsOpenPin, IsRefused, has_room, history, is_noted, with_entries};
ghost use Rattle.store_ledger.specs.declared.note.NoteKind.{NoteKind};

use crate::noting::reserved_under;
use crate::{Ledger, Note, PinFault, Pinned};
use cell_values::Memory;
use store_versions::{Entry, LeanCore};

/// Room for so many entries and notes more.
fn make_room(entries: &mut Vec<Entry>, notes: &mut Vec<Note>, count: usize) -> Result<(), Memory>
    ensures entries { entries.new.items ≡ entries.old.items }
    ensures notes { notes.new.items ≡ notes.old.items }
    ensures grows { (vec_capacity entries.old ≤ vec_capacity entries.new) × (vec_capacity notes.old ≤ vec_capacity notes.new) }
    ensures room { OnOk result ((length entries.old.items + count ≤ vec_capacity entries.new) × (length notes.old.items + count ≤ vec_capacity notes.new)) }
{
    entries.reserve(count)?;
    notes.reserve(count)?;
    Ok(())
}

/// What a session that pins now holds.
fn pinned_now(core: &LeanCore, session: u32) -> Result<Pinned, Memory>
    ensures { IfOk result (λ pinned. pinned ≡ record { session = session; place = core.now.core.entries; names = core.now.core.names }) }
{
    Ok(Pinned {
        session,
        place: core.entries(),
        names: core.names().copy()?,
    })
}

/// A pin in the core, which then has room for so many versions more, and what its session holds.
fn pin_core(core: &mut LeanCore, session: u32, count: usize) -> Result<Pinned, Memory>
    requires { core.old.core.entries < 2 ^ 64 - 1 }
    ensures ok { OnOk result (core.new.core ≡ core_after core.old.core (Pin session)) }
    ensures pinned { IfOk result (λ pinned. pinned ≡ record { session = session; place = core.old.core.entries; names = core.old.core.names }) }
    ensures room { OnOk result (count ≤ core.new.room) }
    ensures err { OnErr result (core.new.core ≡ core.old.core) }
    ensures grows { core.old.room ≤ core.new.room }
{
    core.reserve(count)?;
    let pinned = pinned_now(core, session)?;
    match core.pin(session) {
        Ok(()) => Ok(pinned),
        Err(want) => {
            drop(pinned);
            Err(want)
        }
    }
}

impl Ledger {
    /// A session begins to see what can be named now.
    pub fn pin(&mut self, session: u32) -> Result<Pinned, PinFault>
        requires { IsTrue (not (is_pinned session (history self.old))) }
        ensures ok { OnOk result (self.new ≡ with_entries (Pin session ∷ []) self.old) }
        ensures room { OnOk result (IsTrue (has_room self.old 4)) }
        ensures pinned { IfOk result (λ pinned. pinned
            ≡ record { session = session; place = length self.old.entries; names = names_at self.old.base (history self.old) }) }
        ensures open { IfOk result (λ pinned. IsOpenPin self.new pinned) }
        ensures untried { OnOk result ((kinds : NoteKind → Bool) → is_noted kinds self.new session ≡ false) }
        ensures err { OnErr result (self.new ≡ self.old) }
        ensures cause { IfErr result (IsRefused self.old) }
    {
        if !self.has_room(4) {
            return Err(PinFault::HistoryFull {
                entries: self.entries.len() as u32,
            });
        }
        // No pin takes more than twice as many entries, notes or versions as it reserves entries.
        let count = 2 * self.reserved as usize + 7;
        make_room(&mut self.entries, &mut self.notes, count)?;
        let pinned = pin_core(&mut self.core, session, count)?;
        self.entries.push_reserved(Entry::Pin { session });
        self.reserved += 3;
        Ok(pinned)
    }

    /// The pin of a session goes. This takes no memory.
    pub fn unpin(&mut self, pinned: Pinned)
        requires { IsOpenPin self.old pinned }
        ensures { self.new ≡ with_entries (Unpin pinned.session ∷ []) self.old }
    {
        let session = pinned.session;
        let reserved = reserved_under(&self.notes, session, pinned.place);
        self.core.unpin(session);
        self.entries.push_reserved(Entry::Unpin { session });
        self.reserved -= reserved;
    }
}
