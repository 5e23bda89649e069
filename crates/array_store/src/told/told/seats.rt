//! Seats of a store's lock that are let go. They may be seats of any value, so that nothing of a store has to be let go for it.

use cell_values::List;
use turn_lock::LockSeat;

/// Lets a seat go.
pub fn let_go<V, E>(seat: LockSeat<V, E>) {
    drop(seat);
}

/// Lets seats go.
pub fn let_go_all<V, E>(seats: List<LockSeat<V, E>>) {
    drop(seats);
}
