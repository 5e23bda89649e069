//! How a lock is made with its seats.
ghost use Rattle.std.specs.Prelude.{◌≡◌, ◌≤◌, ◌∷◌, [], length, All, IfOk, IfErr, IsSome, vec_capacity, Some};
ghost use Rattle.turn_lock.specs.declared.turns.view.Stage.TheVariants.{Idle};
ghost use Rattle.turn_lock.specs.Seats.{first_value, seat_count, AreNewSeats};
ghost use Rattle.turn_lock.specs.Inner.Views.{new_claims};

use crate::turns::history::History;
use crate::turns::lock::TurnLock;
use crate::turns::rule::Deal;
use crate::turns::seat::{LockSeat, TurnSeat};
use crate::turns::view::{Key, SeatView};
use atomic_table::{Refused, Seat, Table};
use cell_values::{List, Memory};
use std::alloc::Global;
use std::snapshot::Snapshot;

// The value in the one slot of a table that was not made.
fn value_in<V: History>(mut slots: Vec<Option<V>>) -> V
    requires one { length slots.items ≡ 1 }
    requires full { All IsSome slots.items }
    ensures { slots.items ≡ Some result ∷ [] }
{
    match slots.pop() {
        Some(Some(value)) => {
            slots.destroy_empty();
            value
        }
        Some(None) => unreachable!(),
        None => unreachable!(),
    }
}

impl<V: History> TurnLock<V> {
    /// A lock of a value with no entries, and its seats, 1 to 17, in the order of their numbers.
    /// Without memory the value comes back.
    pub fn new(
        alloc: Global,
        value: V,
        seats: u32,
    ) -> Result<(TurnLock<V>, List<TurnSeat<V>>), (Memory, V)>
        requires seats { (1 ≤ seats) × (seats ≤ 17) }
        requires empty { V.entries value ≡ [] }
        ensures value { IfOk result (λ made. first_value made.0 ≡ value) }
        ensures count { IfOk result (λ made. (seat_count made.0 ≡ seats) × (length made.1 ≡ seats)) }
        ensures seats { IfOk result (λ made. AreNewSeats made.0 made.1) }
        ensures err { IfErr result (λ e. e.1 ≡ value) }
    {
        let Ok(places) = Vec::with_capacity(alloc, seats as usize) else {
            return Err((Memory, value));
        };
        let Ok(slots) = Vec::with_capacity(alloc, 1) else {
            return Err((Memory, value));
        };
        match TurnLock::with_first(alloc, value, seats, slots) {
            Ok((lock, first)) => {
                let dealt = lock.deal(first, places, seats);
                Ok((lock, dealt))
            }
            Err(value) => Err((Memory, value)),
        }
    }

    // A lock, and the seat that has every number. The slot has room for the value, which comes back without memory.
    fn with_first(
        alloc: Global,
        value: V,
        seats: u32,
        mut slots: Vec<Option<V>>,
    ) -> Result<(TurnLock<V>, Seat<Option<V>, SeatView<V, V::Entry>>), V>
        requires seats { seats ≤ 17 }
        requires empty { V.entries value ≡ [] }
        requires slots { (slots.items ≡ []) × (1 ≤ vec_capacity slots) }
        ensures value { IfOk result (λ made. first_value made.0 ≡ value) }
        ensures count { IfOk result (λ made. seat_count made.0 ≡ seats) }
        ensures first { IfOk result (λ made. (made.1.table_id ≡ made.0.table.shared.table_id) × (made.1.me.0.stage ≡ Idle) × (made.1.me.1 ≡ [])) }
        ensures claims { IfOk result (λ made. (made.1.me.0.first ≡ Some (first_value made.0)) × (made.1.me.0.claims ≡ new_claims 0 seats)) }
        ensures err { IfErr result (λ left. left ≡ value) }
    {
        let key = Key {
            first: Snapshot::of(&value),
            seats,
        };
        slots.push_reserved(Some(value));
        match Table::new(alloc, &[0, 0, 0], slots, &key) {
            Ok((table, first)) => Ok((TurnLock { table }, first)),
            Err(Refused { slots }) => Err(value_in(slots)),
        }
    }

    // Cuts the first seat, which has every number, into one seat for each number.
    fn deal(
        &self,
        first: Seat<Option<V>, SeatView<V, V::Entry>>,
        mut places: Vec<TurnSeat<V>>,
        seats: u32,
    ) -> List<TurnSeat<V>>
        requires first { (first.table_id ≡ self.now.table.shared.table_id) × (first.me.0.stage ≡ Idle) × (first.me.1 ≡ []) }
        requires claims { (first.me.0.first ≡ Some (first_value self.now)) × (first.me.0.claims ≡ new_claims 0 seats) }
        requires places { (places.items ≡ []) × (seats ≤ vec_capacity places) }
        ensures count { length result ≡ seats }
        ensures seats { AreNewSeats self.now result }
    {
        let mut later = first;
        for number in 0..seats {
            let seat = self.table.shared.split_seat::<Deal>(&mut later);
            places.push_reserved(LockSeat { seat, number });
        }
        drop(later);
        List::from_vec(places)
    }
}
