//! A held source as contracts see it.

use crate::marks::Marks;
use afl_outside::Disk;
use snapshot_manager::StoreTurn;

/// What a held source was made with. No value of it is made: it is what contracts see as the source's start.
pub struct LentTurn<D: Disk> {
    pub turn: StoreTurn<D>,
    pub session: u32,
}

/// What it was made with, its turn as it is now, and what it keeps of its calls. No value of it is made.
pub struct Holding<D: Disk> {
    pub lent: LentTurn<D>,
    pub turn: StoreTurn<D>,
    pub marks: Marks,
}
