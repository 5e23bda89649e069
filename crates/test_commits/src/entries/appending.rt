//! How a seat appends to a log that it shares.
ghost use Rattle.std.specs.Prelude.{◌≡◌, OnOk, OnErr};
ghost use Rattle.turn_lock.specs.Owners.{ExtendsByOthers};
ghost use Rattle.turn_lock.specs.Seats.{seat_number, seen_by, IsSeatOf, IsIdle};
ghost use Rattle.test_commits.specs.Entries.{owner_of, Appends};

use crate::entries::log::Log;
use cell_values::Memory;
use std::sync::Wait;
use turn_lock::{TurnLock, TurnSeat};

/// Appends an entry of this seat, behind all that the log has when the seat's turn comes. Where no memory is left
/// the log stays as it is, and the seat has seen all of it.
pub fn append<R: Wait>(
    rt: &R,
    lock: &TurnLock<Log>,
    seat: &mut TurnSeat<Log>,
    content: u64,
) -> Result<(), Memory>
    requires { IsSeatOf lock.now seat.old × IsIdle seat.old }
    ensures seat { IsSeatOf lock.now seat.new × IsIdle seat.new }
    ensures number { seat_number seat.new ≡ seat_number seat.old }
    ensures ok { OnOk result (Appends (seat_number seat.old) content (seen_by seat.old) (seen_by seat.new)) }
    ensures err { OnErr result (ExtendsByOthers owner_of (seat_number seat.old) (seen_by seat.old) (seen_by seat.new)) }
{
    let mut turn = lock.enter(rt, seat);
    let answer = turn.value().push(seat.number(), content);
    lock.leave(seat, turn);
    answer
}
