//! Arrays in memory, as a source that never fails.
ghost use Rattle.std.specs.Prelude.{◌≡◌, IfOk, IsOk};
ghost use Rattle.std.specs.List.{AllByRecursion};
ghost use Rattle.chunk_source.specs.Found.{IsStoredArray};
ghost use Rattle.chunk_source.specs.InMemory.{unread, sure_state};

use crate::memory::LeafArray;
use crate::memory::found::{chunk_in, listed_in};
use crate::sources::{Asked, ChunkSource, SourceFault};
use array_geom::Chunk;
use cell_values::{ChunkAt, List, copy_numbers};
use logical_plan::Leaf;
use std::marker::Model;

/// A source over arrays in memory, which it tells.
pub struct SureChunks {
    arrays: List<LeafArray>,
    asked: List<Asked>,
}

impl Drop for SureChunks {
    fn drop(self) {
        let SureChunks {
            arrays: _,
            asked: _,
        } = self;
    }
}

impl Model for SureChunks {
    ghost use Rattle.std.specs.List.{AllByRecursion};
    ghost use Rattle.chunk_source.specs.Found.{IsStoredArray};
    ghost use Rattle.chunk_source.specs.InMemory.{StoredArrays};

    ghost Value = { StoredArrays };

    ghost view = { λ s. record { arrays = s.arrays; asked = s.asked } };

    ghost invariant = { λ s. AllByRecursion IsStoredArray s.arrays };
}

impl SureChunks {
    /// A source over these arrays. Of several of one name and version the first one counts.
    pub fn new(arrays: List<LeafArray>) -> SureChunks
        requires { AllByRecursion IsStoredArray arrays }
        ensures { result ≡ unread arrays }
    {
        let asked = arrays.another();
        SureChunks { arrays, asked }
    }

    /// The chunks that were asked for, the first one first.
    pub fn asked(&self) -> &[Asked]
        ensures { result.now ≡ self.now.asked }
    {
        self.asked.as_slice()
    }
}

impl ChunkSource for SureChunks {
    type Start = ();

    ghost state = { sure_state };

    ghost start = { λ _. tt };

    fn listed(&mut self, leaf: &Leaf) -> Result<List<ChunkAt>, SourceFault> {
        Ok(listed_in(&self.arrays, leaf)?)
    }

    fn chunk(&mut self, number: u32, leaf: &Leaf, at: &ChunkAt) -> Result<Chunk, SourceFault> {
        let chunk = chunk_in(&self.arrays, leaf, at)?;
        self.asked.push(Asked {
            leaf: number,
            at: copy_numbers(at),
        })?;
        Ok(chunk)
    }

    fn damaged(&self) -> Option<u32> {
        None
    }

    fn faults(&self) -> u64 {
        0
    }
}
