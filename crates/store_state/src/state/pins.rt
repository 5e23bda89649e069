//! Pins and unpins.
ghost use Rattle.std.specs.Prelude.{◌≡◌, Bool, false, not, [], ◌∷◌, length, IfOk, IfErr, OnOk, OnErr, IsTrue};
ghost use Rattle.event_core.specs.declared.entry.Entry.TheVariants.{Pin, Unpin};
ghost use Rattle.event_core.specs.Allowed.{is_pinned};
ghost use Rattle.event_core.specs.History.{names_at};
ghost use Rattle.store_ledger.specs.Ledger.{IsOpenPin, IsRefused, has_room, history, is_noted};
ghost use Rattle.store_ledger.specs.declared.note.NoteKind.{NoteKind};
ghost use Rattle.store_versions.specs.Rows.{needed_rows, places_at};
ghost use Rattle.store_state.specs.At.{AreParts, keeping, standing};
ghost use Rattle.store_state.specs.Standings.{with_entries};

use crate::state::StoreParts;
use afl_outside::Disk;
use store_ledger::{PinFault, Pinned};

/// A session begins to see what can be named now.
pub fn pin<D: Disk>(parts: &mut StoreParts<D>, session: u32) -> Result<Pinned, PinFault>
    requires at { AreParts D.moment parts.old }
    requires unpinned { IsTrue (not (is_pinned session (history parts.old.ledger))) }
    ensures at { AreParts D.moment parts.new }
    ensures ok { OnOk result (standing D.moment parts.new ≡ with_entries (Pin session ∷ []) (standing D.moment parts.old)) }
    ensures room { OnOk result (IsTrue (has_room parts.old.ledger 4)) }
    ensures pinned { IfOk result (λ pinned. pinned ≡ record {
      session = session;
      place = length parts.old.ledger.entries;
      names = names_at parts.old.ledger.base (history parts.old.ledger);
    }) }
    ensures open { IfOk result (λ pinned. IsOpenPin parts.new.ledger pinned) }
    ensures untried { OnOk result ((kinds : NoteKind → Bool) → is_noted kinds parts.new.ledger session ≡ false) }
    ensures kept { keeping parts.new ≡ keeping parts.old }
    ensures err { OnErr result (standing D.moment parts.new ≡ standing D.moment parts.old) }
    ensures cause { IfErr result (IsRefused parts.old.ledger) }
{
    match parts.ledger.pin(session) {
        Ok(pinned) => Ok(pinned),
        Err(fault) => Err(fault),
    }
}

/// The pin of a session goes, and the versions that nobody can name any more. This takes no memory.
pub fn unpin<D: Disk>(parts: &mut StoreParts<D>, pinned: Pinned)
    requires at { AreParts D.moment parts.old }
    requires open { IsOpenPin parts.old.ledger pinned }
    ensures at { AreParts D.moment parts.new }
    ensures kept { keeping parts.new ≡ record (keeping parts.old) { rows = needed_rows (places_at (history parts.new.ledger)) parts.old.table.rows } }
    ensures unpinned { standing D.moment parts.new ≡ with_entries (Unpin pinned.session ∷ []) (standing D.moment parts.old) }
{
    parts.ledger.unpin(pinned);
    parts.table.forget(parts.ledger.pins());
}
