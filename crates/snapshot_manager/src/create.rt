//! How a store is shared.
ghost use Rattle.std.specs.Prelude.{◌≡◌, ◌+◌, ◌≤◌, ◌<◌, [], length, remove, slice_get, IfOk, IfErr, Some, vec_capacity};
ghost use Rattle.turn_lock.specs.Seats.{AreNewSeats as AreNewTurnSeats};
ghost use Rattle.snapshot_manager.specs.Seats.{first_store, seats_in_all, AreNewSeats};

use crate::seat::Seat;
use crate::shared::Shared;
use afl_outside::Disk;
use array_store::{Store, let_go_all};
use cell_values::{List, Memory};
use std::alloc::Global;
use turn_lock::{Bell, LockSeat, TurnLock, TurnSeat};

impl<D: Disk> Shared<D> {
    /// Shares a store in which nothing was done yet among so many sessions, 1 to 16. The seats are theirs in order, and the last one is
    /// nobody's: it is for reaps. Without memory the store comes back.
    pub fn new(
        alloc: Global,
        store: Store<D>,
        sessions: u32,
    ) -> Result<(Shared<D>, List<Seat<D>>), (Memory, Store<D>)>
        requires sessions { (1 ≤ sessions) × (sessions ≤ 16) }
        requires entries { store.ledger.entries ≡ [] }
        requires notes { store.ledger.notes ≡ [] }
        ensures store { IfOk result (λ made. first_store made.0 ≡ store) }
        ensures count { IfOk result (λ made. (seats_in_all made.0 ≡ sessions + 1) × (length made.1 ≡ sessions + 1)) }
        ensures seats { IfOk result (λ made. AreNewSeats made.0 made.1) }
        ensures err { IfErr result (λ failed. failed.1 ≡ store) }
    {
        let count = sessions + 1;
        let Ok(room) = Vec::with_capacity(alloc, count as usize) else {
            return Err((Memory, store));
        };
        match TurnLock::new(alloc, store, count) {
            Ok((lock, turn_seats)) => {
                let shared = Shared {
                    lock,
                    bell: Bell::new(),
                };
                let seats = shared.seated(turn_seats, room);
                Ok((shared, seats))
            }
            Err(failed) => {
                drop(room);
                Err(failed)
            }
        }
    }

    // A seat for each of the lock's, in the same order.
    fn seated(
        &self,
        mut turn_seats: List<TurnSeat<Store<D>>>,
        mut room: Vec<Seat<D>>,
    ) -> List<Seat<D>>
        requires seats { AreNewTurnSeats self.now.lock turn_seats }
        requires room { (room.items ≡ []) × (length turn_seats ≤ vec_capacity room) }
        ensures count { length result ≡ length turn_seats }
        ensures seats { AreNewSeats self.now result }
    {
        let count = turn_seats.len();
        for _ in 0..count {
            let turn_seat = take_first(&mut turn_seats);
            room.push_reserved(Seat {
                turn_seat,
                entries: 0,
                last: 0,
                reads: 0,
            });
        }
        let_go_all(turn_seats);
        List::from_vec(room)
    }
}

/// Takes the first seat out. It may be one of any value, so that nothing of a store has to be let go for it.
fn take_first<V, E>(seats: &mut List<LockSeat<V, E>>) -> LockSeat<V, E>
    requires { 0 < length seats.old }
    ensures item { slice_get seats.old 0 ≡ Some result }
    ensures rest { seats.new ≡ remove seats.old 0 }
{
    seats.remove(0)
}
