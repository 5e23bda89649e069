//! The bytes of a disk in memory, and, for contracts alone, the calls that made them.
ghost use Rattle.std.specs.Prelude.{◌≡◌, OnOk, OnErr, true};
ghost use Rattle.afl_outside.specs.Disk.{ReadsAt};
ghost use Rattle.afl_outside.specs.Inner.Records.{fresh, with_call, content_of};

use crate::in_memory::call_history::CallHistory;
use crate::in_memory::device_call::DeviceCall;
use crate::in_memory::overlay::Overlay;
use cell_values::{Bytes, Memory};
use std::marker::Model;

#[derive(Drop)]
pub(crate) struct GhostRecord {
    bytes: Overlay,
    calls: CallHistory,
}

impl Model for GhostRecord {
    ghost use Rattle.std.specs.Prelude.{◌≡◌};
    ghost use Rattle.afl_outside.specs.Images.{content_after};
    ghost use Rattle.afl_outside.specs.Inner.Records.{Recorded};

    ghost Value = { Recorded };

    ghost view = { λ r. record { first = r.bytes.first; calls = r.calls } };

    ghost invariant = { λ r. r.bytes.content ≡ content_after r.bytes.first r.calls };
}

impl GhostRecord {
    pub(crate) fn new(first: Bytes) -> GhostRecord
        ensures { result ≡ fresh first }
    {
        GhostRecord {
            bytes: Overlay::new(first),
            calls: CallHistory::new(),
        }
    }

    pub(crate) fn content(&self) -> &[u8]
        ensures { result.now ≡ content_of self.now }
    {
        self.bytes.content()
    }

    /// Reads the bytes that stand at a place, as many as fit.
    pub(crate) fn read(&self, at: u64, into: &mut [u8]) -> usize
        ensures { ReadsAt (content_of self.now) at result into.new }
    {
        self.bytes.read(at, into)
    }

    /// Adds a write, and does it.
    pub(crate) fn write(&mut self, at: u64, bytes: &[u8]) -> Result<(), Memory>
        ensures ok { OnOk result (self.new ≡ with_call (DeviceCall.Write at bytes.now) self.old) }
        ensures err { OnErr result (self.new ≡ self.old) }
    {
        let piece = Bytes::from_slice(self.bytes.allocator(), bytes)?;
        self.bytes.write(at, bytes)?;
        self.calls.push(DeviceCall::Write { at, bytes: piece });
        Ok(())
    }

    /// Adds a sync that is done.
    pub(crate) fn sync(&mut self)
        ensures { self.new ≡ with_call (DeviceCall.Sync true) self.old }
    {
        self.calls.push(DeviceCall::Sync { done: true });
    }
}
