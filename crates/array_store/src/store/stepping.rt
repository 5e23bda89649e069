//! Pins, unpins and reaps of a store.
ghost use Rattle.std.specs.Prelude.{◌≡◌, Bool, false, not, [], ◌∷◌, length, if◌then◌else◌, IfOk, IfErr, OnOk, OnErr, IsTrue};
ghost use Rattle.event_core.specs.declared.entry.Entry.TheVariants.{Pin, Reap, Unpin};
ghost use Rattle.event_core.specs.Allowed.{is_pinned};
ghost use Rattle.event_core.specs.History.{names_at};
ghost use Rattle.store_ledger.specs.declared.note.NoteKind.{NoteKind};
ghost use Rattle.store_ledger.specs.Ledger.{IsOpenPin, IsRefused, has_room, history, is_noted, reap_comes};
ghost use Rattle.store_opening.specs.Event.TheVariants.{Entered};
ghost use Rattle.store_versions.specs.Rows.{needed_rows, places_at};
ghost use Rattle.store_opening.specs.At.{keeping, standing};
ghost use Rattle.store_opening.specs.Standings.{with_entries};
ghost use Rattle.array_store.specs.Growth.{AddsEvents};

use crate::store::Store;
use crate::store::store::is_ledger;
use afl_outside::Disk;
use cell_values::Memory;
use store_ledger::{PinFault, Pinned};
use store_opening::{pin, reap, unpin};

impl<D: Disk> Store<D> {
    /// A session begins to see what can be named now.
    pub fn pin(&mut self, session: u32) -> Result<Pinned, PinFault>
        requires unpinned { IsTrue (not (is_pinned session (history self.old.ledger))) }
        ensures ok { OnOk result (standing D.moment self.new ≡ with_entries (Pin session ∷ []) (standing D.moment self.old)) }
        ensures adds { OnOk result (AddsEvents (Entered (Pin session) ∷ []) (standing D.moment self.old) (standing D.moment self.new)) }
        ensures room { OnOk result (IsTrue (has_room self.old.ledger 4)) }
        ensures pinned { IfOk result (λ pinned. pinned ≡ record {
          session = session;
          place = length self.old.ledger.entries;
          names = names_at self.old.ledger.base (history self.old.ledger);
        }) }
        ensures open { IfOk result (λ pinned. IsOpenPin self.new.ledger pinned) }
        ensures untried { OnOk result ((kinds : NoteKind → Bool) → is_noted kinds self.new.ledger session ≡ false) }
        ensures kept { keeping self.new ≡ keeping self.old }
        ensures err { OnErr result (standing D.moment self.new ≡ standing D.moment self.old) }
        ensures cause { IfErr result (IsRefused self.old.ledger) }
    {
        is_ledger(&self.parts.ledger);
        pin(&mut self.parts, session)
    }

    /// The pin of a session goes, and the versions that nobody can name any more. This takes no memory.
    pub fn unpin(&mut self, pinned: Pinned)
        requires open { IsOpenPin self.old.ledger pinned }
        ensures unpinned { standing D.moment self.new ≡ with_entries (Unpin pinned.session ∷ []) (standing D.moment self.old) }
        ensures adds { AddsEvents (Entered (Unpin pinned.session) ∷ []) (standing D.moment self.old) (standing D.moment self.new) }
        ensures kept { keeping self.new ≡ record (keeping self.old) { rows = needed_rows (places_at (history self.new.ledger)) self.old.table.rows } }
    {
        is_ledger(&self.parts.ledger);
        unpin(&mut self.parts, pinned);
    }

    /// All pages that nobody can name become free, if that frees one and the history has room for it. The answer tells whether.
    pub fn reap(&mut self) -> Result<bool, Memory>
        ensures comes { IfOk result (λ comes. comes ≡ reap_comes self.old.ledger) }
        ensures ok { IfOk result (λ comes. standing D.moment self.new ≡
            (if comes then with_entries (Reap ∷ []) (standing D.moment self.old) else standing D.moment self.old)) }
        ensures adds { IfOk result (λ comes. AddsEvents (if comes then Entered Reap ∷ [] else []) (standing D.moment self.old) (standing D.moment self.new)) }
        ensures kept { keeping self.new ≡ keeping self.old }
        ensures err { OnErr result (standing D.moment self.new ≡ standing D.moment self.old) }
    {
        is_ledger(&self.parts.ledger);
        reap(&mut self.parts)
    }
}
