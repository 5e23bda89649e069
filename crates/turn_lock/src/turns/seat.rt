//! A seat at a lock, and the turn that it takes.
ghost use Rattle.std.specs.Prelude.{◌≡◌, length};
ghost use Rattle.turn_lock.specs.Inner.Views.{first_number};

use crate::turns::history::History;
use crate::turns::view::SeatView;
use atomic_table::Seat;

/// A place at a lock, for one thread at a time.
/// It has no bound, so that a struct which is generic itself can hold it beside ghost fields.
pub struct LockSeat<V, E> {
    pub(crate) seat: Seat<Option<V>, SeatView<V, E>>,
    pub(crate) number: u32,
    ghost one: { length seat.me.0.claims ≡ 1 },
    ghost numbered: { first_number seat.me.0.claims ≡ number },
}

impl<V, E> Drop for LockSeat<V, E> {
    fn drop(self) {
        let LockSeat { seat: _, number: _ } = self;
    }
}

/// A seat of the locks of a type.
pub type TurnSeat<V> = LockSeat<V, <V as History>::Entry>;

impl<V, E> LockSeat<V, E> {
    ghost use Rattle.turn_lock.specs.Seats.{seat_number};

    /// The seat's number, from 0.
    pub fn number(&self) -> u32
        ensures { result ≡ seat_number self.now }
    {
        self.number
    }

    // Its seat at the lock's table.
    pub(crate) fn into_seat(self) -> Seat<Option<V>, SeatView<V, E>>
        ensures { result ≡ self.seat }
    {
        let LockSeat { seat, number: _ } = self;
        seat
    }
}

/// The value, while a seat has its turn. It can't be dropped: `leave` takes it back.
pub struct Turn<V> {
    pub(crate) value: V,
    pub(crate) before: u64,
}

impl<V> Turn<V> {
    ghost use Rattle.std.specs.Borrow.{sem, follows};
    ghost use Rattle.turn_lock.specs.contracts.turns.seat.Turn.{the_row};
    ghost use Rattle.turn_lock.specs.Inner.Lent.{turn_with, value_of};

    /// The value. When the borrow ends, the turn has what was written through it.
    pub fn value(&mut self) -> &mut V
        ensures* writes_back { sem 𝓛 (follows (the_row V.row) V.row self.entry.ghost_name result.ghost_name (turn_with self.old)) }
        ensures value { result.now ≡ value_of self.old }
    {
        &mut self.value
    }
}
