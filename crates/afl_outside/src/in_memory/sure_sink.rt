//! A sink in memory that fails only where no memory is found.
ghost use Rattle.std.specs.Prelude.{◌≡◌, ◌≤◌};
ghost use Rattle.afl_outside.specs.InMemory.{unwritten, sure_sink_state, SureWrites};

use crate::{Failed, Sink};
use cell_values::{Bytes, Memory};
use std::marker::Model;

/// A sink in memory that fails only where no memory is found.
#[derive(Drop)]
pub struct SureSink {
    held: Bytes,
    begun: usize,
    wants: u64,
}

impl Model for SureSink {
    ghost use Rattle.std.specs.Prelude.{◌≤◌, length, take};
    ghost use Rattle.afl_outside.specs.InMemory.{Holding};

    ghost Value = { Holding };

    ghost view = { λ s. record { first = take s.begun s.held; held = s.held; wants = s.wants } };

    ghost invariant = { λ s. s.begun ≤ length s.held };
}

impl SureSink {
    /// A sink that begins with these bytes and has the empty name.
    pub fn new(content: Bytes) -> SureSink
        ensures { result ≡ unwritten content }
    {
        let begun = content.len();
        SureSink {
            held: content,
            begun,
            wants: 0,
        }
    }

    /// The bytes that it holds, with those at which it began.
    pub fn bytes(&self) -> &[u8]
        ensures { result.now ≡ self.now.held }
    {
        self.held.as_slice()
    }
}

impl Sink for SureSink {
    ghost state = { sure_sink_state };

    fn write(&mut self, bytes: &[u8]) -> Result<usize, Failed>
        ensures exact { SureWrites bytes.now self.old self.new result }
        ensures wants_later { self.old.wants ≤ self.new.wants }
    {
        match self.held.extend(bytes) {
            Ok(()) => Ok(bytes.len()),
            Err(Memory) => {
                self.wants = self.wants.saturating_add(1);
                Err(Failed)
            }
        }
    }

    fn faults(&self) -> u64 {
        0
    }

    fn wants(&self) -> u64 {
        self.wants
    }
}
