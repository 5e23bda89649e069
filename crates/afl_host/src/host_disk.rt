//! A disk over a file of the system. It tells no bytes and no name.
ghost use Rattle.std.specs.Prelude.{◌≡◌};
ghost use Rattle.std.specs.Io.{ReadsAtMost};

use afl_outside::{Disk, Failed};
use std::fs::File;
use std::io;
use std::os::unix::fs::FileExt;

/// The last place at which a byte of a file can stand.
const LAST: u64 = (1 << 63) - 1;

#[derive(Drop)]
pub struct HostDisk {
    file: File,
    faults: u64,
}

impl HostDisk {
    ghost use Rattle.afl_host.specs.Host.{host_disk_state, untold_disk};

    pub fn new(file: File) -> Self
        ensures { host_disk_state result ≡ untold_disk 0 }
    {
        HostDisk { file, faults: 0 }
    }
}

/// Reads until the piece is full or the file ends.
fn fill(file: &File, at: u64, into: &mut [u8]) -> io::Result<usize>
    ensures { ReadsAtMost result into.new }
{
    if at > LAST {
        return Ok(0);
    }
    let mut count = 0;
    'pieces: while count < into.len() {
        match file.read_at(&mut into[count..], at + count as u64)? {
            0 => break,
            read => count += read,
        }
    }
    Ok(count)
}

impl Disk for HostDisk {
    ghost use Rattle.afl_host.specs.Host.{host_disk_moment};

    ghost moment = { host_disk_moment };

    ghost counts_now = { λ d t c within left. tt };

    ghost only_now = { λ d c left. tt };

    ghost as_read = { λ d. tt };

    fn len(&mut self) -> Result<u64, Failed> {
        match self.file.metadata() {
            Ok(metadata) => Ok(metadata.len()),
            Err(_) => {
                self.faults = self.faults.saturating_add(1);
                Err(Failed)
            }
        }
    }

    fn read_at(&mut self, at: u64, into: &mut [u8]) -> Result<usize, Failed> {
        match fill(&self.file, at, into) {
            Ok(count) => Ok(count),
            Err(_) => {
                self.faults = self.faults.saturating_add(1);
                Err(Failed)
            }
        }
    }

    fn write_at(&mut self, at: u64, bytes: &[u8]) -> Result<(), Failed> {
        match self.file.write_all_at(bytes, at) {
            Ok(()) => Ok(()),
            Err(_) => {
                self.faults = self.faults.saturating_add(1);
                Err(Failed)
            }
        }
    }

    fn sync(&mut self) -> Result<(), Failed> {
        match self.file.sync_all() {
            Ok(()) => Ok(()),
            Err(_) => {
                self.faults = self.faults.saturating_add(1);
                Err(Failed)
            }
        }
    }

    fn wants(&self) -> u64 {
        0
    }

    fn faults(&self) -> u64 {
        self.faults
    }
}
