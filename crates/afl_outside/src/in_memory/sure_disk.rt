//! A disk in memory that fails only where no memory is found.
ghost use Rattle.std.specs.Prelude.{◌≡◌, ◌≤◌, length, IsOk, IfOk, true};
ghost use Rattle.std.specs.Io.{ReadsAtMost};
ghost use Rattle.afl_outside.specs.Disk.{ReadsAt};
ghost use Rattle.afl_outside.specs.Lemmas.ImageLaws.{now_counts, only_images_now, content_is_left};
ghost use Rattle.afl_outside.specs.Inner.Records.{unwritten_disk, content_of, sure_disk_moment, SureCalls};

use crate::in_memory::device_call::DeviceCall;
use crate::in_memory::ghost_record::GhostRecord;
use crate::{Disk, Failed};
use cell_values::{Bytes, Memory};
use std::marker::Model;

/// A disk in memory that fails only where no memory is found; its reads and syncs never fail. Contracts see its writes and
/// syncs, and so the images that a stop might have left; at run time it keeps its bytes alone.
#[derive(Drop)]
pub struct SureDisk {
    kept: GhostRecord,
    wants: u64,
}

impl Model for SureDisk {
    ghost use Rattle.afl_outside.specs.Inner.Records.{SureBytes};

    ghost Value = { SureBytes };

    ghost view = { λ d. record { bytes = d.kept; wants = d.wants } };
}

impl SureDisk {
    /// A disk with these bytes, all of them synced, and the empty name.
    pub fn new(content: Bytes) -> SureDisk
        ensures { result ≡ unwritten_disk content }
    {
        SureDisk {
            kept: GhostRecord::new(content),
            wants: 0,
        }
    }
}

impl Disk for SureDisk {
    ghost moment = { sure_disk_moment };

    ghost counts_now = { λ d. now_counts d.bytes.first d.bytes.calls };

    ghost only_now = { λ d. only_images_now d.bytes.first d.bytes.calls };

    ghost as_read = { λ d. content_is_left d.bytes.first d.bytes.calls };

    fn len(&mut self) -> Result<u64, Failed>
        ensures succeeds { IsOk result }
        ensures value { IfOk result (λ n. n ≡ length (content_of self.old.bytes)) }
        ensures unchanged { self.new ≡ self.old }
    {
        Ok(self.kept.content().len() as u64)
    }

    fn read_at(&mut self, at: u64, into: &mut [u8]) -> Result<usize, Failed>
        ensures succeeds { IsOk result }
        ensures within { ReadsAtMost result into.new }
        ensures bytes { IfOk result (λ n. ReadsAt (content_of self.old.bytes) at n into.new) }
        ensures unchanged { self.new ≡ self.old }
    {
        Ok(self.kept.read(at, into))
    }

    fn write_at(&mut self, at: u64, bytes: &[u8]) -> Result<(), Failed>
        ensures exact { SureCalls (DeviceCall.Write at bytes.now) self.old self.new result }
        ensures wants_later { self.old.wants ≤ self.new.wants }
    {
        match self.kept.write(at, bytes) {
            Ok(()) => Ok(()),
            Err(Memory) => {
                self.wants = self.wants.saturating_add(1);
                Err(Failed)
            }
        }
    }

    fn sync(&mut self) -> Result<(), Failed>
        ensures succeeds { IsOk result }
        ensures exact { SureCalls (DeviceCall.Sync true) self.old self.new result }
        ensures wants_later { self.old.wants ≤ self.new.wants }
    {
        self.kept.sync();
        Ok(())
    }

    fn wants(&self) -> u64 {
        self.wants
    }

    fn faults(&self) -> u64 {
        0
    }
}
