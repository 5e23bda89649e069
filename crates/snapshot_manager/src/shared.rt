//! A store that several threads share.

use afl_outside::Disk;
use array_store::Store;
use turn_lock::{Bell, Turn, TurnLock};

/// A store behind a turn lock, and the bell of its reaper. It can't be dropped: `finish` hands the store back.
pub struct Shared<D: Disk> {
    pub(crate) lock: TurnLock<Store<D>>,
    pub(crate) bell: Bell,
}

/// A turn with the store in hand.
pub type StoreTurn<D> = Turn<Store<D>>;
