//! Pins, unpins and reaps.
ghost use Rattle.std.specs.Prelude.{◌≡◌, [], ◌∷◌, length, IfOk, IfErr, OnOk, OnErr, IsTrue, Bool, false, not};
ghost use Rattle.plan_changes.specs.Databases.{Database};
ghost use Rattle.plan_changes.specs.Stored.{AreStored};
ghost use Rattle.event_core.specs.declared.entry.Entry.TheVariants.{Pin, Unpin};
ghost use Rattle.event_core.specs.History.{names_at};
ghost use Rattle.store_ledger.specs.declared.note.NoteKind.{NoteKind};
ghost use Rattle.store_ledger.specs.Ledger.{has_room, history, is_noted, reap_comes, IsRefused};
ghost use Rattle.array_store.specs.Event.TheVariants.{Entered};
ghost use Rattle.array_store.specs.Calls.{database_with};
ghost use Rattle.array_store.specs.Standings.{BeganAs};
ghost use Rattle.array_store.specs.Databases.{IsDatabaseOf};
ghost use Rattle.snapshot_manager.specs.Seats.{ledger_found, ledger_seen, read_count, seen, session_of, start};
ghost use Rattle.snapshot_manager.specs.Seats.{store_seen, HoldsNone, HoldsPin, IsIdle, IsSameSeat, IsSeatOf};
ghost use Rattle.array_store.specs.Turns.{pin_event, reap_events, Adds};

use crate::seat::Seat;
use crate::shared::Shared;
use afl_outside::Disk;
use cell_values::Memory;
use std::sync::Wait;
use store_ledger::{PinFault, Pinned};

impl<D: Disk> Shared<D> {
    /// The seat's session begins to see what can be named now.
    pub fn pin<R: Wait>(&self, rt: &R, seat: &mut Seat<D>) -> Result<Pinned, PinFault>
        requires seat { IsSeatOf self.now seat.old × IsIdle seat.old }
        requires none { HoldsNone D.moment self.now seat.old }
        ensures seat { IsSeatOf self.now seat.new × IsIdle seat.new }
        ensures same { IsSameSeat seat.old seat.new }
        ensures reads { read_count seat.new ≡ read_count seat.old }
        ensures ok { OnOk result (Adds (session_of seat.old) (pin_event (session_of seat.old) ∷ []) (seen seat.old) (seen seat.new)) }
        ensures pinned { IfOk result (λ pinned. let found = ledger_found D.moment self.now (pin_event (session_of seat.old) ∷ []) seat.new in
            pinned ≡ record { session = session_of seat.old; place = length found.entries; names = names_at found.base (history found) }) }
        ensures room { OnOk result (IsTrue (has_room (ledger_found D.moment self.now (pin_event (session_of seat.old) ∷ []) seat.new) 4)) }
        ensures open { IfOk result (λ pinned. HoldsPin D.moment self.now seat.new pinned) }
        ensures stored { IfOk result (λ pinned. AreStored pinned.names) }
        ensures database { IfOk result (λ pinned. (db : Database) → BeganAs (D.moment (start D.moment self.now).opened.disk).state db
            → IsDatabaseOf (database_with db (store_seen D.moment self.now seat.new) pinned.place) pinned.names) }
        ensures untried { OnOk result ((kinds : NoteKind → Bool) → is_noted kinds (ledger_seen D.moment self.now seat.new) (session_of seat.old) ≡ false) }
        ensures err { OnErr result (Adds (session_of seat.old) [] (seen seat.old) (seen seat.new)) }
        ensures none { OnErr result (HoldsNone D.moment self.now seat.new) }
        ensures cause { IfErr result (IsRefused (ledger_seen D.moment self.now seat.new)) }
    {
        let mut turn = self.begin(rt, seat);
        let answer = turn.value().pin(seat.session());
        self.end(seat, turn);
        answer
    }

    /// The session's pin goes, and the bell is rung.
    pub fn unpin<R: Wait>(&self, rt: &R, seat: &mut Seat<D>, pinned: Pinned)
        requires seat { IsSeatOf self.now seat.old × IsIdle seat.old }
        requires pin { HoldsPin D.moment self.now seat.old pinned }
        ensures seat { IsSeatOf self.now seat.new × IsIdle seat.new }
        ensures same { IsSameSeat seat.old seat.new }
        ensures reads { read_count seat.new ≡ read_count seat.old }
        ensures adds { Adds (session_of seat.old) (Entered (Unpin (session_of seat.old)) ∷ []) (seen seat.old) (seen seat.new) }
        ensures none { HoldsNone D.moment self.now seat.new }
    {
        let mut turn = self.begin(rt, seat);
        turn.value().unpin(pinned);
        self.end(seat, turn);
        self.bell.ring(rt);
    }

    /// All pages that nobody can name become free, if that frees one and the history has room for it. The answer tells whether.
    pub fn reap<R: Wait>(&self, rt: &R, seat: &mut Seat<D>) -> Result<bool, Memory>
        requires seat { IsSeatOf self.now seat.old × IsIdle seat.old }
        ensures seat { IsSeatOf self.now seat.new × IsIdle seat.new }
        ensures same { IsSameSeat seat.old seat.new }
        ensures reads { read_count seat.new ≡ read_count seat.old }
        ensures comes { IfOk result (λ comes. comes ≡ reap_comes (ledger_found D.moment self.now (reap_events comes) seat.new)) }
        ensures adds { IfOk result (λ comes. Adds (session_of seat.old) (reap_events comes) (seen seat.old) (seen seat.new)) }
        ensures err { OnErr result (Adds (session_of seat.old) [] (seen seat.old) (seen seat.new)) }
    {
        let mut turn = self.begin(rt, seat);
        let answer = turn.value().reap();
        self.end(seat, turn);
        answer
    }
}
