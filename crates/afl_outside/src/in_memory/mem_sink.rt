//! A sink in memory whose writes fail where a list says so.
ghost use Rattle.std.specs.Prelude.{◌≡◌, ◌≤◌, []};
ghost use Rattle.afl_outside.specs.InMemory.{new_sink, memory_sink_state, MemoryWrites};

use crate::in_memory::turns::FailingCalls;
use crate::{Failed, Sink};
use cell_values::{Bytes, List, Memory};
use std::marker::Model;

/// A sink in memory, some of whose writes fail.
#[derive(Drop)]
pub struct MemSink {
    name: Bytes,
    held: Bytes,
    begun: usize,
    turns: FailingCalls,
    wants: u64,
}

impl Model for MemSink {
    ghost use Rattle.std.specs.Prelude.{◌≤◌, length, take};
    ghost use Rattle.afl_outside.specs.InMemory.{MemorySink};

    ghost Value = { MemorySink };

    ghost view = { λ s. record { name = s.name; bytes = record { first = take s.begun s.held; held = s.held; wants = s.wants }; turns = s.turns } };

    ghost invariant = { λ s. s.begun ≤ length s.held };
}

impl MemSink {
    /// A sink that begins with these bytes and has the empty name. `fails` has the numbers, from 0, of the writes
    /// that are to fail.
    pub fn new(content: Bytes, fails: List<u64>) -> MemSink
        ensures { result ≡ new_sink [] content fails }
    {
        let name = content.another();
        MemSink::named(name, content, fails)
    }

    pub(crate) fn named(name: Bytes, content: Bytes, fails: List<u64>) -> MemSink
        ensures { result ≡ new_sink name content fails }
    {
        let begun = content.len();
        MemSink {
            name,
            held: content,
            begun,
            turns: FailingCalls::new(fails),
            wants: 0,
        }
    }

    /// The bytes that it holds, with those at which it began.
    pub fn bytes(&self) -> &[u8]
        ensures { result.now ≡ self.now.bytes.held }
    {
        self.held.as_slice()
    }
}

impl Sink for MemSink {
    ghost state = { memory_sink_state };

    fn write(&mut self, bytes: &[u8]) -> Result<usize, Failed>
        ensures exact { MemoryWrites bytes.now self.old self.new result }
        ensures later { self.old.turns.faults ≤ self.new.turns.faults }
        ensures wants_later { self.old.bytes.wants ≤ self.new.bytes.wants }
    {
        if self.turns.fails_next() {
            return Err(Failed);
        }
        match self.held.extend(bytes) {
            Ok(()) => Ok(bytes.len()),
            Err(Memory) => {
                self.wants = self.wants.saturating_add(1);
                Err(Failed)
            }
        }
    }

    fn faults(&self) -> u64 {
        self.turns.faults()
    }

    fn wants(&self) -> u64 {
        self.wants
    }
}
