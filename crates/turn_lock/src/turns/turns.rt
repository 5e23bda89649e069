//! How a seat takes its turn and ends it.
ghost use Rattle.std.specs.Prelude.{◌≡◌, ◌%◌, ◌^◌};
ghost use Rattle.turn_lock.specs.declared.turns.view.Stage.TheVariants.{Waiting};
ghost use Rattle.turn_lock.specs.Inner.Lent.{value_of};
ghost use Rattle.turn_lock.specs.Owners.{ExtendsByOthers, ExtendsByOwn};
ghost use Rattle.turn_lock.specs.Seats.{seat_number, seen_by, first_value, IsSeatOf, IsIdle, HasSlot, HasTurn};
ghost use Rattle.turn_lock.specs.Inner.Steps.{Begins};

use crate::turns::history::History;
use crate::turns::lock::{COUNT, NEXT, SERVED, SLOT, TurnLock};
use crate::turns::rule::{Count, Draw, InHand, Look, Serve};
use crate::turns::seat::{Turn, TurnSeat};
use crate::turns::view::SeatView;
use atomic_table::Seat;
use std::marker::Brand;
use std::sync::Wait;

// A sleep compares 32 bits.
const LOW: u64 = 0xffff_ffff;

impl<V: History> TurnLock<V> {
    /// Waits for a turn. The seat then has seen all entries of the value.
    pub fn enter<R: Wait>(&self, rt: &R, seat: &mut TurnSeat<V>) -> Turn<V>
        requires seat { IsSeatOf self.now seat.old × IsIdle seat.old }
        ensures lock { IsSeatOf self.now seat.new }
        ensures number { seat_number seat.new ≡ seat_number seat.old }
        ensures turn { HasTurn seat.new result }
        ensures origin { V.origin (value_of result) ≡ V.origin (first_value self.now) }
        ensures entries { ExtendsByOthers V.owner (seat_number seat.old) (seen_by seat.old) (V.entries (value_of result)) }
        ensures seen { seen_by seat.new ≡ V.entries (value_of result) }
    {
        let shared = &self.table.shared;
        let ticket = shared.fetch_add::<Draw>(&mut seat.seat, NEXT, 1);
        self.wait(rt, &mut seat.seat, ticket);
        let Some(value) = shared.exchange(&mut seat.seat, SLOT, None) else {
            unreachable!()
        };
        let before = value.count();
        Turn { value, before }
    }

    // Waits for the turn of a ticket, and takes the slot.
    fn wait<R: Wait>(&self, rt: &R, seat: &mut Seat<Option<V>, SeatView<V, V::Entry>>, ticket: u64)
        requires seat { (seat.old.table_id ≡ self.now.table.shared.table_id) × (seat.old.me.0.stage ≡ Waiting) }
        requires ticket { ticket ≡ seat.old.me.0.ticket % 2 ^ 64 }
        ensures seat { (seat.new.table_id ≡ seat.old.table_id) × (seat.new.me.0.first ≡ seat.old.me.0.first) }
        ensures turn { Begins V.origin V.entries V.owner seat.old.me seat.new.me }
    {
        let shared = &self.table.shared;
        for _ in rt.forever() {
            let served = shared.load::<Look>(seat, SERVED);
            if served == ticket {
                return;
            }
            shared.park(rt, SERVED, (served & LOW) as u32);
        }
        unreachable!()
    }

    /// Ends the turn that `enter` gave this seat. The seat then has seen just the entries that the value has.
    pub fn leave(&self, seat: &mut TurnSeat<V>, turn: Turn<V>)
        requires seat { IsSeatOf self.now seat.old × HasTurn seat.old turn }
        requires origin { V.origin (value_of turn) ≡ V.origin (first_value self.now) }
        requires entries { ExtendsByOwn V.owner (seat_number seat.old) (seen_by seat.old) (V.entries (value_of turn)) }
        ensures lock { IsSeatOf self.now seat.new }
        ensures number { seat_number seat.new ≡ seat_number seat.old }
        ensures idle { IsIdle seat.new }
        ensures seen { seen_by seat.new ≡ V.entries (value_of turn) }
    {
        let shared = &self.table.shared;
        self.make_known::<Brand>(seat, &turn);
        let Turn { value, before: _ } = turn;
        match shared.exchange(&mut seat.seat, SLOT, Some(value)) {
            None => {}
            Some(_) => unreachable!(),
        }
        shared.fetch_add::<Serve>(&mut seat.seat, SERVED, 1);
        shared.wake_all(SERVED);
    }

    // Adds the new entries of a turn to the count, by which they become known.
    fn make_known<H: InHand<V::Entry>>(&self, seat: &mut TurnSeat<V>, turn: &Turn<V>)
        requires seat { IsSeatOf self.now seat.old × HasTurn seat.old turn.now }
        requires hand { H.entries ≡ V.entries (value_of turn.now) }
        requires entries { ExtendsByOwn V.owner (seat_number seat.old) (seen_by seat.old) H.entries }
        ensures lock { IsSeatOf self.now seat.new }
        ensures number { seat_number seat.new ≡ seat_number seat.old }
        ensures slot { HasSlot seat.new }
        ensures seen { seen_by seat.new ≡ H.entries }
    {
        let more = turn.value.count() - turn.before;
        self.table
            .shared
            .fetch_add::<Count<H>>(&mut seat.seat, COUNT, more);
    }
}
