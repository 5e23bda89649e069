//! The memory of a run, which is taken before its first session begins.
ghost use Rattle.std.specs.Prelude.{◌≡◌, ◌+◌, ◌≤◌, [], length, IfErr, IfOk};
ghost use Rattle.snapshot_manager.specs.Seats.{first_store, seats_in_all, AreNewSeats};
ghost use Rattle.session_threads.specs.Inner.Rooms.{HasRoom};

use crate::desk::Desk;
use afl_outside::Disk;
use cell_values::{List, Memory};
use snapshot_manager::{Seat, Shared, Store};
use std::alloc::Global;

/// Lists with room for what the sessions of a run hand out and give back.
#[derive(Drop)]
pub(crate) struct Room<P, W, M> {
    pub(crate) desks: Vec<Desk<P, W, M>>,
    pub(crate) seats: Vec<P>,
    pub(crate) reports: Vec<M>,
}

impl<P: Drop, W: Drop, M: Drop> Room<P, W, M> {
    /// Room for so many sessions, and for the reaper's seat.
    pub(crate) fn new(alloc: Global, sessions: usize) -> Result<Room<P, W, M>, Memory>
        requires { sessions ≤ 16 }
        ensures { IfOk result (HasRoom sessions) }
    {
        Ok(Room {
            desks: Vec::with_capacity(alloc, sessions)?,
            seats: Vec::with_capacity(alloc, sessions + 1)?,
            reports: Vec::with_capacity(alloc, sessions)?,
        })
    }
}

/// Shares a store in which nothing was done yet among so many sessions, with the room for their run. Without memory the store comes back.
pub(crate) fn opened<D: Disk + Drop, W: Drop, M: Drop>(
    alloc: Global,
    store: Store<D>,
    sessions: usize,
) -> Result<(Shared<D>, List<Seat<D>>, Room<Seat<D>, W, M>), (Memory, Store<D>)>
    requires sessions { (1 ≤ sessions) × (sessions ≤ 16) }
    requires entries { store.ledger.entries ≡ [] }
    requires notes { store.ledger.notes ≡ [] }
    ensures store { IfOk result (λ made. first_store made.0 ≡ store) }
    ensures count { IfOk result (λ made. (seats_in_all made.0 ≡ sessions + 1) × (length made.1 ≡ sessions + 1)) }
    ensures seats { IfOk result (λ made. AreNewSeats made.0 made.1) }
    ensures room { IfOk result (λ made. HasRoom sessions made.2) }
    ensures err { IfErr result (λ failed. failed.1 ≡ store) }
{
    let Ok(room) = Room::new(alloc, sessions) else {
        return Err((Memory, store));
    };
    match Shared::new(alloc, store, sessions as u32) {
        Ok((shared, seats)) => Ok((shared, seats, room)),
        Err(failed) => {
            drop(room);
            Err(failed)
        }
    }
}
