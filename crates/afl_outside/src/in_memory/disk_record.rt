//! The bytes of a disk in memory, and the calls that made them.
ghost use Rattle.std.specs.Prelude.{◌≡◌, OnOk, OnErr};
ghost use Rattle.afl_outside.specs.Disk.{ReadsAt};
ghost use Rattle.afl_outside.specs.Images.{IsNote};
ghost use Rattle.afl_outside.specs.Inner.Records.{fresh, with_call, content_of};

use crate::in_memory::device_call::DeviceCall;
use crate::in_memory::overlay::Overlay;
use cell_values::{Bytes, List, Memory};
use std::marker::Model;

pub(crate) struct DiskRecord {
    bytes: Overlay,
    calls: List<DeviceCall>,
}

impl Drop for DiskRecord {
    fn drop(self) {
        let DiskRecord { bytes: _, calls: _ } = self;
    }
}

impl Model for DiskRecord {
    ghost use Rattle.std.specs.Prelude.{◌≡◌};
    ghost use Rattle.afl_outside.specs.Images.{content_after};
    ghost use Rattle.afl_outside.specs.Inner.Records.{Recorded};

    ghost Value = { Recorded };

    ghost view = { λ r. record { first = r.bytes.first; calls = r.calls } };

    ghost invariant = { λ r. r.bytes.content ≡ content_after r.bytes.first r.calls };
}

impl DiskRecord {
    pub(crate) fn new(first: Bytes) -> DiskRecord
        ensures { result ≡ fresh first }
    {
        let calls = first.another();
        DiskRecord {
            bytes: Overlay::new(first),
            calls,
        }
    }

    pub(crate) fn calls(&self) -> &[DeviceCall]
        ensures { result.now ≡ self.now.calls }
    {
        self.calls.as_slice()
    }

    pub(crate) fn first(&self) -> &Bytes
        ensures { result.now ≡ self.now.first }
    {
        self.bytes.first()
    }

    pub(crate) fn content(&self) -> &[u8]
        ensures { result.now ≡ content_of self.now }
    {
        self.bytes.content()
    }

    /// Reads the bytes that stand at a place, as many as fit.
    pub(crate) fn read(&self, at: u64, into: &mut [u8]) -> usize
        ensures { ReadsAt (content_of self.now) at result into.new }
    {
        self.bytes.read(at, into)
    }

    /// Adds a call that changes no byte.
    pub(crate) fn note(&mut self, call: DeviceCall) -> Result<(), Memory>
        requires { IsNote call }
        ensures ok { OnOk result (self.new ≡ with_call call self.old) }
        ensures err { OnErr result (self.new ≡ self.old) }
        ensures content { content_of self.new ≡ content_of self.old }
    {
        self.calls.push(call)?;
        Ok(())
    }

    /// Adds a write, and does it.
    pub(crate) fn write(&mut self, at: u64, bytes: &[u8]) -> Result<(), Memory>
        ensures ok { OnOk result (self.new ≡ with_call (DeviceCall.Write at bytes.now) self.old) }
        ensures err { OnErr result (self.new ≡ self.old) }
    {
        let piece = Bytes::from_slice(self.bytes.allocator(), bytes)?;
        self.calls.push(DeviceCall::Write { at, bytes: piece })?;
        match self.bytes.write(at, bytes) {
            Ok(()) => Ok(()),
            Err(Memory) => {
                let _ = self.calls.pop();
                Err(Memory)
            }
        }
    }
}
