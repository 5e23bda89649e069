//! How a lock ends: its seats come back, and then its value.
ghost use Rattle.std.specs.Prelude.{◌≡◌};
ghost use Rattle.turn_lock.specs.declared.turns.view.Stage.TheVariants.{Idle};

use crate::turns::history::History;
use crate::turns::lock::{COUNT, SLOT, TurnLock};
use crate::turns::rule::{Arrive, Gather};
use crate::turns::seat::TurnSeat;
use crate::turns::view::SeatView;
use atomic_table::Seat;
use cell_values::List;

/// A lock that is being closed. Its seats come back one by one, which takes no memory.
#[derive(Drop)]
pub struct Closing<V: History> {
    pub(crate) lock: TurnLock<V>,
    pub(crate) all: Seat<Option<V>, SeatView<V, V::Entry>>,
    ghost ours: { all.table_id ≡ lock.table.shared.table_id },
    ghost idle: { all.me.0.stage ≡ Idle },
}

impl<V: History> TurnLock<V> {
    ghost use Rattle.std.specs.Prelude.{[], length};
    ghost use Rattle.turn_lock.specs.Closings.{lock_of, claims_of};
    ghost use Rattle.turn_lock.specs.Owners.{AreOwnedBelow};
    ghost use Rattle.turn_lock.specs.Seats.{first_value, seat_count, AreIdleSeats, ExtendsEach};

    /// Ends the lock, once it has all its seats again.
    pub fn close(self, mut seats: List<TurnSeat<V>>) -> V
        requires count { length seats ≡ seat_count self }
        requires seats { AreIdleSeats self seats }
        ensures origin { V.origin result ≡ V.origin (first_value self) }
        ensures entries { ExtendsEach V.owner seats (V.entries result) }
        ensures owned { AreOwnedBelow V.owner (seat_count self) (V.entries result) }
    {
        let mut closing = self.closing();
        while let Some(last) = seats.pop() {
            closing.take_back(last);
        }
        closing.end()
    }

    /// Begins to end the lock. A caller whose seats lie within values of its own hands them back one by one.
    pub fn closing(self) -> Closing<V>
        ensures lock { lock_of result ≡ self }
        ensures none { claims_of result ≡ [] }
    {
        let (_, all) = self.table.shared.load_new_seat::<Arrive>(COUNT);
        Closing { lock: self, all }
    }
}

impl<V: History> Closing<V> {
    ghost use Rattle.std.specs.Prelude.{◌∷◌, length, All};
    ghost use Rattle.turn_lock.specs.Closings.{lock_of, claims_of};
    ghost use Rattle.turn_lock.specs.Owners.{AreOwnedBelow, ExtendsByOthers};
    ghost use Rattle.turn_lock.specs.Seats.{first_value, seat_count, claim_of, IsSeatOf, IsIdle};

    /// Takes a seat of the lock, which has no turn.
    pub fn take_back(&mut self, seat: TurnSeat<V>)
        requires { IsSeatOf (lock_of self.old) seat × IsIdle seat }
        ensures lock { lock_of self.new ≡ lock_of self.old }
        ensures claims { claims_of self.new ≡ claim_of seat ∷ claims_of self.old }
    {
        let lock = &self.lock;
        let seat = seat.into_seat();
        lock.table.shared.join_seat::<Gather>(&mut self.all, seat);
    }

    /// The value, once all seats are back.
    pub fn end(self) -> V
        requires { length (claims_of self) ≡ seat_count (lock_of self) }
        ensures origin { V.origin result ≡ V.origin (first_value (lock_of self)) }
        ensures entries { All (λ c. ExtendsByOthers V.owner c.number c.seen (V.entries result)) (claims_of self) }
        ensures owned { AreOwnedBelow V.owner (seat_count (lock_of self)) (V.entries result) }
    {
        let Closing { lock, all } = self;
        let TurnLock { table } = lock;
        let mut closed = table.close_with(all);
        let slot = closed.take(SLOT);
        closed.free();
        match slot {
            Some(value) => value,
            None => unreachable!(),
        }
    }
}
