//! The lock: a table of three words and one slot.
ghost use Rattle.std.specs.Prelude.{◌≡◌};

use crate::turns::history::History;
use crate::turns::rule::OneHistory;
use crate::turns::view::{Key, SeatView};
use atomic_table::Table;
use std::alloc::Global;

// The words of the table: the number of entries, the next ticket, and the ticket served.
pub(crate) const COUNT: usize = 0;

pub(crate) const NEXT: usize = 1;

pub(crate) const SERVED: usize = 2;

// The one slot has the value while no seat has a turn.
pub(crate) const SLOT: usize = 0;

/// A value that threads have in turn, in the order of their tickets.
#[derive(Drop)]
pub struct TurnLock<V: History> {
    pub(crate) table: Table<Option<V>, SeatView<V, V::Entry>, Key<V>, OneHistory, Global>,
    ghost sized: { (table.shared.table_id.words ≡ 3) × (table.shared.table_id.slots ≡ 1) },
}
