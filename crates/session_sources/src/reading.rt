//! A pinned source as contracts see it.

use crate::marks::Marks;
use afl_outside::Disk;
use snapshot_manager::{Seat, Shared};
use store_ledger::Pinned;

/// What a pinned source was made with. No value of it is made: it is what contracts see as the source's start.
pub struct Lent<D: Disk> {
    pub shared: Shared<D>,
    pub seat: Seat<D>,
    pub pinned: Pinned,
}

/// What it was made with, its seat as it is now, and what it keeps of its calls. No value of it is made.
pub struct Reading<D: Disk> {
    pub lent: Lent<D>,
    pub seat: Seat<D>,
    pub marks: Marks,
}
