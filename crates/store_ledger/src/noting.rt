//! Notes that stand under a pin, and new ones.
ghost use Rattle.std.specs.Prelude.{false, [], ◌∷◌, length, IfSome, IsTrue, ◌≡◌, ◌&&◌, if◌then◌else◌, nat_eq, nat_lt};
ghost use Rattle.std.specs.List.{list_any};
ghost use Rattle.store_ledger.specs.declared.note.NoteKind.TheVariants.{Fault};
ghost use Rattle.event_core.specs.Allowed.{is_pinned};
ghost use Rattle.store_versions.specs.History.{pin_before};
ghost use Rattle.store_ledger.specs.Ledger.{MayReap, attempt, has_note, has_room, history, is_fault, is_noted, is_tried, note_now, with_fault, with_notes};

use crate::{Ledger, Note, NoteKind};
use std::snapshot::Snapshot;
use store_versions::{Change, LeanPin};

/// Whether a fault was noted under the pin of a session and a place.
fn is_faulty(notes: &[Note], session: u32, place: u64) -> bool
    ensures { result ≡ list_any (λ note. nat_eq note.session session && (is_fault note.kind && nat_lt place note.after)) notes.now }
{
    notes.iter().any(|note| note.session == session && note.kind.is_fault() && place < note.after)
}

/// Whether a fault was noted under a session's pin, which is one of these.
fn is_faulted(pins: &[LeanPin], notes: &[Note], session: u32) -> bool
    ensures { result ≡ list_any (λ pin. nat_eq pin.session session
        && list_any (λ note. nat_eq note.session pin.session && (is_fault note.kind && nat_lt pin.place note.after)) notes.now) pins.now }
{
    pins.iter().any(|pin| pin.session == session && is_faulty(notes, pin.session, pin.place))
}

/// Whether a session tried a commit under its pin of a place.
fn has_try(notes: &[Note], session: u32, place: u64) -> bool
    ensures { result ≡ list_any (λ note. nat_eq note.session session && (is_tried note.kind && nat_lt place note.after)) notes.now }
{
    notes.iter().any(|note| note.session == session && note.kind.is_tried() && place < note.after)
}

/// How many entries the pin of a session and a place reserves.
pub(crate) fn reserved_under(notes: &[Note], session: u32, place: u64) -> u32
    ensures { result ≡ (if list_any (λ note. nat_eq note.session session && (is_tried note.kind && nat_lt place note.after)) notes.now then 1 else 3) }
{
    if has_try(notes, session, place) { 1 } else { 3 }
}

impl Ledger {
    /// The first note that the device failed under a session's pin. This takes no memory.
    pub fn note_fault(&mut self, session: u32)
        requires pinned { IsTrue (is_pinned session (history self.old)) }
        requires first { IfSome (pin_before session (history self.old))
            (λ before. has_note is_fault self.old.notes (record { session = session; before = before }) ≡ false) }
        ensures { self.new ≡ with_notes (record { session = session; kind = Fault; after = length self.old.entries } ∷ []) self.old }
    {
        let after = self.entries.len() as u64;
        self.notes.push_reserved(Note {
            session,
            kind: NoteKind::Fault,
            after,
        });
    }

    /// The note that the device failed under a session's pin, if there is none yet. This takes no memory.
    pub fn note_first_fault(&mut self, session: u32)
        requires { IsTrue (is_pinned session (history self.old)) }
        ensures { self.new ≡ with_fault session self.old }
    {
        if !self.has_fault(session) {
            self.note_fault(session);
        }
    }

    /// Whether a fault was noted under a session's pin.
    fn has_fault(&self, session: u32) -> bool
        ensures { result ≡ is_noted is_fault self.now session }
    {
        is_faulted(self.core.pins(), self.notes.as_slice(), session)
    }

    /// The note that a commit of a change is tried under a session's pin, which gives back two of the entries that the pin reserved. This takes no memory.
    pub fn note_tried(&mut self, session: u32, change: &Change)
        requires pinned { IsTrue (is_pinned session (history self.old)) }
        requires first { IfSome (pin_before session (history self.old))
            (λ before. has_note is_tried self.old.notes (record { session = session; before = before }) ≡ false) }
        ensures noted { self.new ≡ with_notes (note_now (attempt change.now) self.old session ∷ []) self.old }
        ensures room { IsTrue (has_room self.new 2) }
        ensures cause { MayReap self.new }
    {
        let after = self.entries.len() as u64;
        self.notes.push_reserved(Note {
            session,
            kind: NoteKind::Tried(Snapshot::of(change)),
            after,
        });
        self.reserved -= 2;
    }
}
