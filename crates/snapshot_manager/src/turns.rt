//! Turns of the store.
ghost use Rattle.std.specs.Prelude.{◌≡◌, []};
ghost use Rattle.turn_lock.specs.Owners.{ExtendsByOwn};
ghost use Rattle.array_store.specs.At.{AreParts, standing};
ghost use Rattle.array_store.specs.Events.{events, owner_of};
ghost use Rattle.array_store.specs.Starts.{start_of};
ghost use Rattle.snapshot_manager.specs.Seats.{read_count, seen, session_of, start, store_of, HasTurn, IsIdle, IsSameSeat, IsSeatOf};
ghost use Rattle.array_store.specs.Told.{IsTold};
ghost use Rattle.array_store.specs.Turns.{Adds};

use crate::seat::Seat;
use crate::shared::{Shared, StoreTurn};
use afl_outside::Disk;
use std::sync::Wait;
use turn_lock::Ring;

impl<D: Disk> Shared<D> {
    // Waits for a turn. The store in hand is the one that the seat's events then tell.
    pub(crate) fn begin<R: Wait>(&self, rt: &R, seat: &mut Seat<D>) -> StoreTurn<D>
        requires seat { IsSeatOf self.now seat.old × IsIdle seat.old }
        ensures seat { IsSeatOf self.now seat.new × HasTurn seat.new result }
        ensures same { IsSameSeat seat.old seat.new }
        ensures reads { read_count seat.new ≡ read_count seat.old }
        ensures found { Adds (session_of seat.old) [] (seen seat.old) (seen seat.new) }
        ensures start { start_of (standing D.moment (store_of result)) ≡ start D.moment self.now }
        ensures events { events (standing D.moment (store_of result)) ≡ seen seat.new }
        ensures told { IsTold (start D.moment self.now) (seen seat.new) (standing D.moment (store_of result)) }
    {
        let mut turn = self.lock.enter(rt, &mut seat.turn_seat);
        let store = turn.value();
        store.is_at();
        seat.entries = store.history().len() as u64;
        turn
    }

    // Ends a turn. The seat then has seen just the events of the store in hand.
    pub(crate) fn end(&self, seat: &mut Seat<D>, mut turn: StoreTurn<D>)
        requires seat { IsSeatOf self.now seat.old × HasTurn seat.old turn }
        requires start { start_of (standing D.moment (store_of turn)) ≡ start D.moment self.now }
        requires events { ExtendsByOwn owner_of (session_of seat.old) (seen seat.old) (events (standing D.moment (store_of turn))) }
        ensures seat { IsSeatOf self.now seat.new × IsIdle seat.new }
        ensures same { IsSameSeat seat.old seat.new }
        ensures reads { read_count seat.new ≡ read_count seat.old }
        ensures seen { seen seat.new ≡ events (standing D.moment (store_of turn)) }
        ensures told { IsTold (start D.moment self.now) (seen seat.new) (standing D.moment (store_of turn)) }
        ensures at { AreParts D.moment (store_of turn) }
    {
        let store = turn.value();
        store.is_at();
        seat.entries = store.history().len() as u64;
        self.lock.leave(&mut seat.turn_seat, turn);
    }

    /// Ends the turn that a call left with this seat, and rings the bell. What was done in the turn may only be the seat's own, or nobody's.
    pub fn end_turn<R: Wait>(&self, rt: &R, seat: &mut Seat<D>, turn: StoreTurn<D>)
        requires seat { IsSeatOf self.now seat.old × HasTurn seat.old turn }
        requires start { start_of (standing D.moment (store_of turn)) ≡ start D.moment self.now }
        requires events { ExtendsByOwn owner_of (session_of seat.old) (seen seat.old) (events (standing D.moment (store_of turn))) }
        ensures seat { IsSeatOf self.now seat.new × IsIdle seat.new }
        ensures same { IsSameSeat seat.old seat.new }
        ensures reads { read_count seat.new ≡ read_count seat.old }
        ensures seen { seen seat.new ≡ events (standing D.moment (store_of turn)) }
    {
        self.end(seat, turn);
        self.bell.ring(rt);
    }

    /// Waits until the bell was rung since the last such call, or is closed.
    pub fn await_bell<R: Wait>(&self, rt: &R) -> Ring {
        self.bell.await_bell(rt)
    }

    /// Closes the bell: a wait for it ends then.
    pub fn close_bell<R: Wait>(&self, rt: &R) {
        self.bell.close(rt);
    }
}
