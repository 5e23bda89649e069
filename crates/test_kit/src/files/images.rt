//! Which writes a stop may leave of those behind the last sync.

use afl_outside::DeviceCall;
use cell_values::{List, Memory};
use std::alloc::Global;

/// How many writes there are behind the last sync that was done.
pub fn unsynced(calls: &[DeviceCall]) -> usize {
    let mut writes = 0usize;
    for call in calls {
        match call {
            DeviceCall::Write { .. } => writes = writes.saturating_add(1),
            DeviceCall::Sync { done: true } => writes = 0,
            _ => {}
        }
    }
    writes
}

/// Which of so many writes stand: all of them by pattern 0, all but one by those up to their number, and none by the next one.
pub fn kept_by(alloc: Global, pattern: usize, writes: usize) -> Result<List<bool>, Memory> {
    let mut kept = List::new(alloc);
    for write in 0..writes {
        kept.push(pattern <= writes && pattern != write + 1)?;
    }
    Ok(kept)
}
