//! A source in memory whose reads fail where a list says so.
ghost use Rattle.std.specs.Prelude.{◌≡◌, ◌<◌, ◌^◌, ◌≤◌, [], OnOk};
ghost use Rattle.afl_outside.specs.InMemory.{new_source, memory_source_state, MemoryReads};

use crate::in_memory::pieces::copy_front;
use crate::in_memory::turns::FailingCalls;
use crate::{Failed, Source};
use cell_values::{Bytes, List};
use std::marker::Model;

/// A source in memory, some of whose reads fail.
#[derive(Drop)]
pub struct MemSource {
    name: Bytes,
    content: Bytes,
    at: usize,
    turns: FailingCalls,
}

impl Model for MemSource {
    ghost use Rattle.std.specs.Prelude.{◌≤◌, length, drop};
    ghost use Rattle.afl_outside.specs.InMemory.{MemorySource};

    ghost Value = { MemorySource };

    ghost view = { λ s. record { name = s.name; bytes = record { first = s.content; left = drop s.at s.content; given = s.at }; turns = s.turns } };

    ghost invariant = { λ s. s.at ≤ length s.content };
}

impl MemSource {
    /// A source with these bytes and the empty name. `fails` has the numbers, from 0, of the reads that are to fail.
    pub fn new(content: Bytes, fails: List<u64>) -> MemSource
        ensures { result ≡ new_source [] content fails }
    {
        let name = content.another();
        MemSource::named(name, content, fails)
    }

    pub(crate) fn named(name: Bytes, content: Bytes, fails: List<u64>) -> MemSource
        ensures { result ≡ new_source name content fails }
    {
        MemSource {
            name,
            content,
            at: 0,
            turns: FailingCalls::new(fails),
        }
    }
}

impl Source for MemSource {
    ghost state = { memory_source_state };

    fn read(&mut self, into: &mut [u8]) -> Result<usize, Failed>
        ensures exact { MemoryReads into.new self.old self.new result }
        ensures bound { OnOk result (self.new.bytes.given < 2 ^ 63) }
        ensures later { self.old.turns.faults ≤ self.new.turns.faults }
    {
        if self.turns.fails_next() {
            return Err(Failed);
        }
        let count = copy_front(self.content.as_slice().split_at(self.at).1, into);
        self.at += count;
        Ok(count)
    }

    fn faults(&self) -> u64 {
        self.turns.faults()
    }
}
