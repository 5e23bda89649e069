//! What others see of a disk while a store has it.

use afl_outside::{DeviceCall, MemDisk};
use cell_values::{Bytes, Memory};
use std::alloc::Global;
use std::cell::{Cell, RefCell};
use std::rc::Rc;
use test_kit::{disk_bytes, kept_by, unsynced};

/// A disk in memory as those see it who don't have it.
pub struct Watch {
    pub(crate) disk: Rc<RefCell<MemDisk>>,
    pub(crate) failing: Rc<Cell<u64>>,
}

impl Drop for Watch {
    fn drop(self) {
        let Watch {
            disk: _,
            failing: _,
        } = self;
    }
}

impl Watch {
    /// What others see of this disk.
    pub fn new(alloc: Global, disk: MemDisk) -> Result<Watch, Memory> {
        let disk = Rc::new(alloc, RefCell::new(disk))?;
        let failing = Rc::new(alloc, Cell::new(0))?;
        Ok(Watch { disk, failing })
    }

    /// The call of this number from now on, from 1, fails. A write that fails has written its bytes.
    pub fn fail(&self, call: u64) {
        self.failing.set(call);
    }

    /// How many calls there were.
    pub fn count(&self) -> usize {
        match self.disk.try_borrow() {
            Ok(disk) => disk.calls().len(),
            Err(_) => 0,
        }
    }

    /// The bytes that the disk holds.
    pub fn bytes(&self) -> Result<Bytes, Memory> {
        match self.disk.try_borrow() {
            Ok(disk) => disk_bytes(&*disk),
            Err(_) => Err(Memory),
        }
    }

    /// How many patterns of writes `image` knows for a stop behind so many calls; none where the last one changed nothing that it may leave.
    pub fn patterns(&self, calls: usize) -> usize {
        match self.disk.try_borrow() {
            Ok(disk) => patterns_of(first(disk.calls(), calls)),
            Err(_) => 0,
        }
    }

    /// An image that a stop behind so many calls may leave: with all writes since the last sync by pattern 0, all but one by the next ones,
    /// and with none by the last one. Where a write is left out this byte stands.
    pub fn image(
        &self,
        alloc: Global,
        calls: usize,
        pattern: usize,
        fill: u8,
    ) -> Result<Bytes, Memory> {
        match self.disk.try_borrow() {
            Ok(disk) => image_of(alloc, &*disk, calls, pattern, fill),
            Err(_) => Err(Memory),
        }
    }
}

fn first(calls: &[DeviceCall], count: usize) -> &[DeviceCall] {
    &calls[..count.min(calls.len())]
}

fn patterns_of(calls: &[DeviceCall]) -> usize {
    match calls.last() {
        None | Some(DeviceCall::Write { .. } | DeviceCall::Sync { .. }) => {
            unsynced(calls).saturating_add(2)
        }
        Some(DeviceCall::Length | DeviceCall::Read { .. }) => 0,
    }
}

fn image_of(
    alloc: Global,
    disk: &MemDisk,
    calls: usize,
    pattern: usize,
    fill: u8,
) -> Result<Bytes, Memory> {
    let made = disk.calls();
    let count = calls.min(made.len());
    let kept = kept_by(alloc, pattern, unsynced(&made[..count]))?;
    disk.image(count as u64, kept.as_slice(), fill)
}
