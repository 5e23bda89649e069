//! A disk in memory whose calls fail where a list says so. It keeps a record of all its calls.
ghost use Rattle.std.specs.Prelude.{◌≡◌, ◌≤◌, ◌↔◌, [], length, take, cond, IsTrue, IfOk, true, false};
ghost use Rattle.std.specs.Io.{ReadsAtMost};
ghost use Rattle.afl_outside.specs.Disk.{ReadsAt};
ghost use Rattle.afl_outside.specs.Images.{IsNote, Leaves, stopped_image};
ghost use Rattle.afl_outside.specs.Lemmas.ImageLaws.{now_counts, only_images_now, content_is_left};
ghost use Rattle.afl_outside.specs.Inner.Records.{new_disk, content_of, memory_disk_moment, FailsNext, MemoryCalls};

use crate::in_memory::device_call::DeviceCall;
use crate::in_memory::disk_record::DiskRecord;
use crate::in_memory::images::image_after;
use crate::{Disk, Failed};
use cell_values::{Bytes, List, Memory};
use std::marker::Model;

/// A disk in memory, some of whose calls fail. It keeps a record of all its calls, failed ones included. A write that the
/// list lets fail has written all its bytes. A call that finds no memory changes no byte and isn't recorded.
pub struct MemDisk {
    name: Bytes,
    kept: DiskRecord,
    fails: List<u64>,
    faults: u64,
    wants: u64,
}

impl Drop for MemDisk {
    fn drop(self) {
        let MemDisk {
            name: _,
            kept: _,
            fails: _,
            faults: _,
            wants: _,
        } = self;
    }
}

impl Model for MemDisk {
    ghost use Rattle.afl_outside.specs.Inner.Records.{MemoryDisk};

    ghost Value = { MemoryDisk };

    ghost view = { λ d. record { name = d.name; bytes = d.kept; fails = d.fails; faults = d.faults; wants = d.wants } };
}

impl MemDisk {
    /// A disk with these bytes, all of them synced, and the empty name. `fails` has the numbers, from 0, of the
    /// calls that are to fail.
    pub fn new(content: Bytes, fails: List<u64>) -> MemDisk
        ensures { result ≡ new_disk [] content fails }
    {
        let name = content.another();
        MemDisk::named(name, content, fails)
    }

    pub(crate) fn named(name: Bytes, content: Bytes, fails: List<u64>) -> MemDisk
        ensures { result ≡ new_disk name content fails }
    {
        MemDisk {
            name,
            kept: DiskRecord::new(content),
            fails,
            faults: 0,
            wants: 0,
        }
    }

    /// The calls so far, failed ones included.
    pub fn calls(&self) -> &[DeviceCall]
        ensures { result.now ≡ self.now.bytes.calls }
    {
        self.kept.calls()
    }

    /// One image that a stop right after the first `calls` calls may leave: what the last sync that was done left, with
    /// the writes since then in order. The k-th of these writes stands as written, or where `kept[k]` is false leaves
    /// `fill` in every byte that it wrote. A write past the end of `kept` stands as written, and places of `kept` past
    /// the last write are not read.
    pub fn image(&self, calls: u64, kept: &[bool], fill: u8) -> Result<Bytes, Memory>
        requires { calls ≤ length self.now.bytes.calls }
        ensures bytes { IfOk result (λ image. image ≡ stopped_image self.now.bytes.first (take calls self.now.bytes.calls) kept.now fill) }
        ensures left { IfOk result (λ image. Leaves self.now.bytes.first (take calls self.now.bytes.calls) image) }
    {
        let (calls, _) = self.kept.calls().split_at(calls as usize);
        image_after(self.kept.first(), calls, kept, fill)
    }

    fn fails_next(&self) -> bool
        ensures { IsTrue result ↔ FailsNext self.now }
    {
        let call = self.kept.calls().len() as u64;
        self.fails.as_slice().contains(&call)
    }

    /// Records a call that changes no byte, as `undone` where it is to fail.
    fn note(&mut self, done: DeviceCall, undone: DeviceCall) -> Result<(), Failed>
        requires done { IsNote done }
        requires undone { IsNote undone }
        ensures exact { MemoryCalls done undone self.old self.new result }
        ensures content { content_of self.new.bytes ≡ content_of self.old.bytes }
        ensures later { self.old.faults ≤ self.new.faults }
        ensures wants_later { self.old.wants ≤ self.new.wants }
    {
        let fails = self.fails_next();
        match self.kept.note(one_of(fails, undone, done)) {
            Ok(()) if fails => {
                self.faults = self.faults.saturating_add(1);
                Err(Failed)
            }
            Ok(()) => Ok(()),
            Err(Memory) => {
                self.wants = self.wants.saturating_add(1);
                Err(Failed)
            }
        }
    }
}

/// The first call where it is to be that one, else the second.
fn one_of(is_first: bool, first: DeviceCall, second: DeviceCall) -> DeviceCall
    requires first { IsNote first }
    requires second { IsNote second }
    ensures call { result ≡ cond is_first first second }
    ensures note { IsNote result }
{
    if is_first {
        drop(second);
        first
    } else {
        drop(first);
        second
    }
}

impl Disk for MemDisk {
    ghost moment = { memory_disk_moment };

    ghost counts_now = { λ d. now_counts d.bytes.first d.bytes.calls };

    ghost only_now = { λ d. only_images_now d.bytes.first d.bytes.calls };

    ghost as_read = { λ d. content_is_left d.bytes.first d.bytes.calls };

    fn len(&mut self) -> Result<u64, Failed>
        ensures exact { MemoryCalls DeviceCall.Length DeviceCall.Length self.old self.new result }
        ensures value { IfOk result (λ n. n ≡ length (content_of self.old.bytes)) }
        ensures later { self.old.faults ≤ self.new.faults }
        ensures wants_later { self.old.wants ≤ self.new.wants }
    {
        self.note(DeviceCall::Length, DeviceCall::Length)?;
        Ok(self.kept.content().len() as u64)
    }

    fn read_at(&mut self, at: u64, into: &mut [u8]) -> Result<usize, Failed>
        ensures exact { let call = DeviceCall.Read at (length into.new) in MemoryCalls call call self.old self.new result }
        ensures within { ReadsAtMost result into.new }
        ensures bytes { IfOk result (λ n. ReadsAt (content_of self.old.bytes) at n into.new) }
        ensures later { self.old.faults ≤ self.new.faults }
        ensures wants_later { self.old.wants ≤ self.new.wants }
    {
        let length = into.len() as u64;
        self.note(
            DeviceCall::Read { at, length },
            DeviceCall::Read { at, length },
        )?;
        Ok(self.kept.read(at, into))
    }

    fn write_at(&mut self, at: u64, bytes: &[u8]) -> Result<(), Failed>
        ensures exact { let call = DeviceCall.Write at bytes.now in MemoryCalls call call self.old self.new result }
        ensures later { self.old.faults ≤ self.new.faults }
        ensures wants_later { self.old.wants ≤ self.new.wants }
    {
        let fails = self.fails_next();
        match self.kept.write(at, bytes) {
            Ok(()) if fails => {
                self.faults = self.faults.saturating_add(1);
                Err(Failed)
            }
            Ok(()) => Ok(()),
            Err(Memory) => {
                self.wants = self.wants.saturating_add(1);
                Err(Failed)
            }
        }
    }

    fn sync(&mut self) -> Result<(), Failed>
        ensures exact { MemoryCalls (DeviceCall.Sync true) (DeviceCall.Sync false) self.old self.new result }
        ensures later { self.old.faults ≤ self.new.faults }
        ensures wants_later { self.old.wants ≤ self.new.wants }
    {
        self.note(
            DeviceCall::Sync { done: true },
            DeviceCall::Sync { done: false },
        )
    }

    fn wants(&self) -> u64 {
        self.wants
    }

    fn faults(&self) -> u64 {
        self.faults
    }
}
