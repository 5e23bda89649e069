//! A source in memory that never fails.
ghost use Rattle.std.specs.Prelude.{◌≡◌, ◌<◌, ◌^◌, OnOk};
ghost use Rattle.afl_outside.specs.InMemory.{unread, sure_source_state, SureReads};

use crate::in_memory::pieces::copy_front;
use crate::{Failed, Source};
use cell_values::Bytes;
use std::marker::Model;

/// A source in memory that never fails.
#[derive(Drop)]
pub struct SureSource {
    content: Bytes,
    at: usize,
}

impl Model for SureSource {
    ghost use Rattle.std.specs.Prelude.{◌≤◌, length, drop};
    ghost use Rattle.afl_outside.specs.InMemory.{Reading};

    ghost Value = { Reading };

    ghost view = { λ s. record { first = s.content; left = drop s.at s.content; given = s.at } };

    ghost invariant = { λ s. s.at ≤ length s.content };
}

impl SureSource {
    /// A source with these bytes and the empty name.
    pub fn new(content: Bytes) -> SureSource
        ensures { result ≡ unread content }
    {
        SureSource { content, at: 0 }
    }
}

impl Source for SureSource {
    ghost state = { sure_source_state };

    fn read(&mut self, into: &mut [u8]) -> Result<usize, Failed>
        ensures exact { SureReads into.new self.old self.new result }
        ensures bound { OnOk result (self.new.given < 2 ^ 63) }
    {
        let count = copy_front(self.content.as_slice().split_at(self.at).1, into);
        self.at += count;
        Ok(count)
    }

    fn faults(&self) -> u64 {
        0
    }
}
