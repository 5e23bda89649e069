//! A disk in memory that tells no bytes, and that others watch while a store has it.

use crate::watch::Watch;
use afl_outside::{Disk, Failed, MemDisk};
use cell_values::Memory;
use std::alloc::Global;
use std::cell::{Cell, RefCell};
use std::rc::Rc;

/// A disk in memory that tells contracts no bytes.
pub struct QuietDisk {
    disk: Rc<RefCell<MemDisk>>,
    /// How many calls from now the one is that fails; 0 where none does.
    failing: Rc<Cell<u64>>,
    faults: u64,
}

impl Drop for QuietDisk {
    fn drop(self) {
        let QuietDisk {
            disk: _,
            failing: _,
            faults: _,
        } = self;
    }
}

impl QuietDisk {
    /// A quiet disk over this one, and what others see of it.
    pub fn watched(alloc: Global, disk: MemDisk) -> Result<(QuietDisk, Watch), Memory> {
        let watch = Watch::new(alloc, disk)?;
        let quiet = QuietDisk::over(&watch)?;
        Ok((quiet, watch))
    }

    /// A quiet disk over one that is watched already.
    pub fn over(watch: &Watch) -> Result<QuietDisk, Memory> {
        Ok(QuietDisk {
            disk: watch.disk.clone()?,
            failing: watch.failing.clone()?,
            faults: 0,
        })
    }
}

/// Whether the next call is the one that fails. It then is no longer to come.
fn fails_now(failing: &Rc<Cell<u64>>) -> bool {
    let left = failing.get();
    failing.set(left.saturating_sub(1));
    left == 1
}

impl Disk for QuietDisk {
    ghost use Rattle.test_quiet.specs.Quiet.{quiet_moment};

    ghost moment = { quiet_moment };

    ghost counts_now = { λ d t c within left. tt };

    ghost only_now = { λ d c left. tt };

    ghost as_read = { λ d. tt };

    fn len(&mut self) -> Result<u64, Failed> {
        let fails = fails_now(&self.failing);
        match self.disk.try_borrow_mut() {
            Ok(mut disk) => match disk.len() {
                Ok(length) if !fails => return Ok(length),
                _ => {}
            },
            Err(_) => {}
        }
        self.faults = self.faults.saturating_add(1);
        Err(Failed)
    }

    fn read_at(&mut self, at: u64, into: &mut [u8]) -> Result<usize, Failed> {
        let fails = fails_now(&self.failing);
        match self.disk.try_borrow_mut() {
            Ok(mut disk) => match disk.read_at(at, into) {
                Ok(count) if !fails => return Ok(count),
                _ => {}
            },
            Err(_) => {}
        }
        self.faults = self.faults.saturating_add(1);
        Err(Failed)
    }

    fn write_at(&mut self, at: u64, bytes: &[u8]) -> Result<(), Failed> {
        let fails = fails_now(&self.failing);
        match self.disk.try_borrow_mut() {
            Ok(mut disk) => match disk.write_at(at, bytes) {
                Ok(()) if !fails => return Ok(()),
                _ => {}
            },
            Err(_) => {}
        }
        self.faults = self.faults.saturating_add(1);
        Err(Failed)
    }

    fn sync(&mut self) -> Result<(), Failed> {
        let fails = fails_now(&self.failing);
        match self.disk.try_borrow_mut() {
            Ok(mut disk) => match disk.sync() {
                Ok(()) if !fails => return Ok(()),
                _ => {}
            },
            Err(_) => {}
        }
        self.faults = self.faults.saturating_add(1);
        Err(Failed)
    }

    fn wants(&self) -> u64 {
        0
    }

    fn faults(&self) -> u64 {
        self.faults
    }
}
