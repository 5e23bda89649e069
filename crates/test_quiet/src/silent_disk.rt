//! A disk in memory that tells no bytes, and may pass from thread to thread.
ghost use Rattle.std.specs.Io.{ReadsAtMost};

use afl_outside::{Disk, Failed, SureDisk};
use cell_values::Bytes;

/// A disk in memory that tells contracts no bytes.
pub struct SilentDisk {
    disk: SureDisk,
    faults: u64,
}

impl Drop for SilentDisk {
    fn drop(self) {
        let SilentDisk { disk: _, faults: _ } = self;
    }
}

impl SilentDisk {
    /// A disk with these bytes.
    pub fn new(bytes: Bytes) -> SilentDisk {
        SilentDisk {
            disk: SureDisk::new(bytes),
            faults: 0,
        }
    }
}

impl Disk for SilentDisk {
    ghost use Rattle.test_quiet.specs.Silent.{silent_moment};

    ghost moment = { silent_moment };

    ghost counts_now = { λ d t c within left. tt };

    ghost only_now = { λ d c left. tt };

    ghost as_read = { λ d. tt };

    fn len(&mut self) -> Result<u64, Failed> {
        match self.disk.len() {
            Ok(length) => Ok(length),
            Err(Failed) => {
                self.faults = self.faults.saturating_add(1);
                Err(Failed)
            }
        }
    }

    fn read_at(&mut self, at: u64, into: &mut [u8]) -> Result<usize, Failed> {
        match self.disk.read_at(at, into) {
            Ok(count) => Ok(count),
            Err(Failed) => {
                self.faults = self.faults.saturating_add(1);
                Err(Failed)
            }
        }
    }

    fn write_at(&mut self, at: u64, bytes: &[u8]) -> Result<(), Failed> {
        match self.disk.write_at(at, bytes) {
            Ok(()) => Ok(()),
            Err(Failed) => {
                self.faults = self.faults.saturating_add(1);
                Err(Failed)
            }
        }
    }

    fn sync(&mut self) -> Result<(), Failed> {
        match self.disk.sync() {
            Ok(()) => Ok(()),
            Err(Failed) => {
                self.faults = self.faults.saturating_add(1);
                Err(Failed)
            }
        }
    }

    fn wants(&self) -> u64 {
        0
    }

    fn faults(&self) -> u64 {
        self.faults
    }
}
