//! Files in memory, to whose replies a write may be short.

use afl_outside::{Failed, MemDisk, MemShelf, MemSink, MemSource, Shelf, Sink};

/// A sink in memory that takes at most so many bytes a call, and one at least.
#[derive(Drop)]
pub(crate) struct CappedSink {
    sink: MemSink,
    most: usize,
}

impl CappedSink {
    /// The bytes that it holds.
    pub(crate) fn bytes(&self) -> &[u8] {
        self.sink.bytes()
    }
}

impl Sink for CappedSink {
    ghost use Rattle.afl_outside.specs.InMemory.{memory_sink_state};

    ghost state = { λ k. memory_sink_state k.sink };

    fn write(&mut self, bytes: &[u8]) -> Result<usize, Failed> {
        let (piece, _) = bytes.split_at(bytes.len().min(self.most.max(1)));
        self.sink.write(piece)
    }

    fn faults(&self) -> u64 {
        self.sink.faults()
    }

    fn wants(&self) -> u64 {
        self.sink.wants()
    }
}

/// Files in memory, whose replies take at most so many bytes a call.
#[derive(Drop)]
pub(crate) struct CappedShelf {
    shelf: MemShelf,
    most: usize,
}

impl CappedShelf {
    /// A shelf of these files.
    pub(crate) fn new(shelf: MemShelf, most: usize) -> CappedShelf {
        CappedShelf { shelf, most }
    }
}

impl Shelf for CappedShelf {
    type S = MemSource;

    type K = CappedSink;

    type Device = MemDisk;

    ghost use Rattle.afl_outside.specs.Files.{memory_shelf_state};

    ghost state = { λ s. memory_shelf_state s.shelf };

    fn script(&mut self, name: &str) -> Result<MemSource, Failed> {
        self.shelf.script(name)
    }

    fn reply(&mut self, name: &str) -> Result<CappedSink, Failed> {
        match self.shelf.reply(name) {
            Ok(sink) => Ok(CappedSink {
                sink,
                most: self.most,
            }),
            Err(Failed) => Err(Failed),
        }
    }

    fn device(&mut self, name: &str) -> Result<MemDisk, Failed> {
        self.shelf.device(name)
    }

    fn wants(&self) -> u64 {
        self.shelf.wants()
    }

    fn faults(&self) -> u64 {
        self.shelf.faults()
    }
}
