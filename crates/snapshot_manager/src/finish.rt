//! How a store is taken back from its sessions.
ghost use Rattle.std.specs.Prelude.{◌≡◌, ◌++◌, length, map, All};
ghost use Rattle.turn_lock.specs.Closings.{claims_of, lock_of};
ghost use Rattle.turn_lock.specs.Owners.{AreOwnedBelow};
ghost use Rattle.array_store.specs.At.{standing};
ghost use Rattle.array_store.specs.Events.{events, owner_of};
ghost use Rattle.array_store.specs.Starts.{start_of};
ghost use Rattle.snapshot_manager.specs.Seats.{claim_in, seats_in_all, start, AreIdleSeats, ExtendEach, IsIdleAt};

use crate::seat::Seat;
use crate::shared::Shared;
use afl_outside::Disk;
use array_store::Store;
use cell_values::List;
use turn_lock::Closing;

impl<D: Disk> Shared<D> {
    /// Hands the store back, once all its seats are. This takes no memory.
    pub fn finish(self, mut seats: List<Seat<D>>) -> Store<D>
        requires count { length seats ≡ seats_in_all self }
        requires seats { AreIdleSeats self seats }
        ensures start { start_of (standing D.moment result) ≡ start D.moment self }
        ensures events { ExtendEach seats (events (standing D.moment result)) }
        ensures owned { AreOwnedBelow owner_of (seats_in_all self) (events (standing D.moment result)) }
    {
        let Shared { lock, bell } = self;
        drop(bell);
        let mut closing = lock.closing();
        take_all(&mut closing, &mut seats);
        drop(seats);
        closing.end()
    }
}

/// Takes all seats back, the last one first.
fn take_all<D: Disk>(closing: &mut Closing<Store<D>>, seats: &mut List<Seat<D>>)
    requires { All (IsIdleAt (lock_of closing.old)) seats.old }
    ensures lock { lock_of closing.new ≡ lock_of closing.old }
    ensures claims { claims_of closing.new ≡ map claim_in seats.old ++ claims_of closing.old }
{
    while let Some(last) = seats.pop() {
        closing.take_back(last.into_turn_seat());
    }
}
