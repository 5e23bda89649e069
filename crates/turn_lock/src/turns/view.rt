//! What a seat knows of the lock. Of these types only the key is made: the others exist in proofs alone.
use std::collections::LinkedList;
use std::snapshot::Snapshot;

/// What a seat does.
pub enum Stage {
    Idle,
    /// It has drawn a ticket.
    Waiting,
    /// It has its turn, and the slot.
    Holding,
}

/// A seat number, and the entries that the seat of that number has seen.
pub struct Claim<E> {
    pub number: u32,
    pub seen: LinkedList<E>,
}

/// What one seat knows.
pub struct SeatView<V, E> {
    pub stage: Stage,
    /// Counted without end, where its word counts modulo 2^64.
    pub ticket: u64,
    /// The value that the lock was made with, which each seat with a number knows.
    pub first: Option<V>,
    /// A caller's seat has one. The first seat of a new lock has all, and so has the one that gathers them at the end.
    pub claims: LinkedList<Claim<E>>,
}

/// What is fixed when a lock is made.
pub struct Key<V> {
    pub first: Snapshot<V>,
    pub seats: u32,
}

impl<V> Drop for Key<V> {
    fn drop(self) {
        let Key { first: _, seats: _ } = self;
    }
}
