//! Lists of seats, from which they are taken, and into which they come back.
ghost use Rattle.std.specs.Prelude.{◌≡◌, ◌+◌, ◌<◌, length, vec_capacity, vec_len, All};
ghost use Rattle.snapshot_manager.specs.Seats.{AreIdleSeats, IsIdle, IsSeatOf};
ghost use Rattle.test_stores.specs.Visits.{IsFree};

use afl_outside::Disk;
use cell_values::List;
use snapshot_manager::{Seat, Shared};

/// The last of seats that weren't used yet.
pub fn taken<D: Disk>(shared: &Shared<D>, seats: &mut List<Seat<D>>) -> Seat<D>
    requires some { 0 < length seats.old }
    requires free { All (IsFree D.moment shared.now) seats.old }
    ensures count { length seats.old ≡ length seats.new + 1 }
    ensures left { All (IsFree D.moment shared.now) seats.new }
    ensures seat { IsFree D.moment shared.now result }
{
    match seats.pop() {
        Some(seat) => seat,
        None => unreachable!(),
    }
}

/// The seats with one more, for which there is room.
pub fn with_seat<D: Disk>(
    shared: &Shared<D>,
    mut seats: Vec<Seat<D>>,
    seat: Seat<D>,
) -> Vec<Seat<D>>
    requires room { vec_len seats < vec_capacity seats }
    requires seats { AreIdleSeats shared.now seats.items }
    requires seat { IsSeatOf shared.now seat × IsIdle seat }
    ensures room { vec_capacity result ≡ vec_capacity seats }
    ensures count { vec_len result ≡ vec_len seats + 1 }
    ensures seats { AreIdleSeats shared.now result.items }
{
    seats.push_reserved(seat);
    seats
}
