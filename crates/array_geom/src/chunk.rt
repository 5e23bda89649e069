//! Chunks, and arrays that are made of them.
ghost use Rattle.std.specs.Prelude.{◌≡◌, IfOk};

use array_rows::{Broken, Cells, ChunkAt, Copies, List, Margins, Memory, Schema, copy_numbers};

/// The cells of a chunk's core and of its margins, by their rising positions in the chunk's frame.
#[derive(Drop)]
pub struct Chunk {
    pub at: ChunkAt,
    pub positions: List<u64>,
    pub cells: Cells,
}

/// An array: its chunks by their rising numbers, or why it could not be computed.
#[derive(Drop)]
pub struct ChunkedArray {
    pub schema: Schema,
    pub margins: Margins,
    pub chunks: List<Chunk>,
    pub broken: Option<Broken>,
}

/// What a change writes: all chunks of an array, or those that it changes.
#[derive(Drop)]
pub struct Changed {
    pub schema: Schema,
    pub whole: bool,
    pub chunks: List<Chunk>,
}

impl Chunk {
    /// An equal chunk.
    pub fn copy(&self) -> Result<Chunk, Memory>
        ensures { IfOk result (λ copy. copy ≡ self.now) }
    {
        let positions = self.positions.copy()?;
        match self.cells.copy() {
            Ok(cells) => Ok(Chunk {
                at: copy_numbers(&self.at),
                positions,
                cells,
            }),
            Err(Memory) => {
                drop(positions);
                Err(Memory)
            }
        }
    }
}

impl Copies for Chunk {
    fn copy(&self) -> Result<Chunk, Memory> {
        self.copy()
    }
}

fn copy_broken(broken: &Option<Broken>) -> Result<Option<Broken>, Memory>
    ensures { IfOk result (λ copy. copy ≡ broken.now) }
{
    match broken {
        Some(broken) => Ok(Some(broken.copy()?)),
        None => Ok(None),
    }
}

impl ChunkedArray {
    /// An equal array.
    pub fn copy(&self) -> Result<ChunkedArray, Memory>
        ensures { IfOk result (λ copy. copy ≡ self.now) }
    {
        let broken = copy_broken(&self.broken)?;
        let schema = self.schema.copy()?;
        match self.chunks.copy() {
            Ok(chunks) => Ok(ChunkedArray {
                schema,
                margins: copy_numbers(&self.margins),
                chunks,
                broken,
            }),
            Err(Memory) => {
                drop(schema);
                Err(Memory)
            }
        }
    }
}

impl Copies for ChunkedArray {
    fn copy(&self) -> Result<ChunkedArray, Memory> {
        self.copy()
    }
}

impl Changed {
    /// An equal value.
    pub fn copy(&self) -> Result<Changed, Memory>
        ensures { IfOk result (λ copy. copy ≡ self.now) }
    {
        let schema = self.schema.copy()?;
        match self.chunks.copy() {
            Ok(chunks) => Ok(Changed {
                schema,
                whole: self.whole,
                chunks,
            }),
            Err(Memory) => {
                drop(schema);
                Err(Memory)
            }
        }
    }
}

impl Copies for Changed {
    fn copy(&self) -> Result<Changed, Memory> {
        self.copy()
    }
}
