//! Bytes in memory, with those that were written over them.
ghost use Rattle.std.specs.Prelude.{◌≡◌, OnOk, OnErr};
ghost use Rattle.afl_outside.specs.Disk.{written, ReadsAt};
ghost use Rattle.afl_outside.specs.Inner.Overlay.{unlaid, laid_over};

use crate::in_memory::pieces::{copy_front, lay};
use cell_values::{Bytes, Memory};
use std::alloc::Global;
use std::marker::Model;

/// `over` holds the bytes once a write was done: an overlay is made without new memory.
#[derive(Drop)]
pub(crate) struct Overlay {
    first: Bytes,
    over: Option<Vec<u8>>,
}

impl Model for Overlay {
    ghost use Rattle.afl_outside.specs.Inner.Overlay.{Overlaid, laid_over};

    ghost Value = { Overlaid };

    ghost view = { λ o. record { first = o.first; content = laid_over o.first o.over } };
}

impl Overlay {
    /// These bytes, with nothing over them.
    pub(crate) fn new(first: Bytes) -> Overlay
        ensures { result ≡ unlaid first }
    {
        Overlay { first, over: None }
    }

    /// The bytes with which it began.
    pub(crate) fn first(&self) -> &Bytes
        ensures { result.now ≡ self.now.first }
    {
        &self.first
    }

    pub(crate) fn allocator(&self) -> Global {
        self.first.allocator()
    }

    pub(crate) fn content(&self) -> &[u8]
        ensures { result.now ≡ self.now.content }
    {
        match &self.over {
            Some(over) => over.as_slice(),
            None => self.first.as_slice(),
        }
    }

    /// Reads the bytes that stand at a place, as many as fit.
    pub(crate) fn read(&self, at: u64, into: &mut [u8]) -> usize
        ensures { ReadsAt self.now.content at result into.new }
    {
        let content = self.content();
        let at = (content.len() as u64).min(at) as usize;
        copy_front(content.split_at(at).1, into)
    }

    /// Writes over the bytes, of which the first write makes a copy.
    pub(crate) fn write(&mut self, at: u64, bytes: &[u8]) -> Result<(), Memory>
        ensures ok { OnOk result (self.new ≡ record self.old { content = written at bytes.now self.old.content }) }
        ensures err { OnErr result (self.new ≡ self.old) }
    {
        lay_over(&self.first, &mut self.over, at, bytes)
    }
}

fn lay_over(first: &Bytes, over: &mut Option<Vec<u8>>, at: u64, bytes: &[u8]) -> Result<(), Memory>
    ensures ok { OnOk result (laid_over first.now over.new ≡ written at bytes.now (laid_over first.now over.old)) }
    ensures err { OnErr result (laid_over first.now over.new ≡ laid_over first.now over.old) }
{
    match over {
        Some(content) => lay(content, at, bytes),
        None => {
            let mut content = Vec::from_slice(first.allocator(), first.as_slice())?;
            lay(&mut content, at, bytes)?;
            *over = Some(content);
            Ok(())
        }
    }
}
