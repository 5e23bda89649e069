//! Arrays in memory, as a source whose calls fail where a list says so.
ghost use Rattle.std.specs.Prelude.{◌≡◌, IfOk, IsOk, IsTrue};
ghost use Rattle.std.specs.List.{AllByRecursion};
ghost use Rattle.array_geom.specs.Link.{NumbersRise};
ghost use Rattle.logical_plan.specs.Meaning.{Database};
ghost use Rattle.chunk_source.specs.Source.{Reads, listed, is_among, numbers_of, IsStored, AreNumbersIn, IsChunkIn, Keeps, Blames, AsksFor};
ghost use Rattle.chunk_source.specs.Found.{IsStoredArray};
ghost use Rattle.chunk_source.specs.InMemory.{new_chunks, memory_state, TakesTurn};

use crate::memory::turns::FailingCalls;
use crate::memory::{LeafArray, SureChunks};
use crate::sources::{Asked, ChunkSource, SourceFault};
use array_geom::Chunk;
use cell_values::{ChunkAt, List, Memory};
use logical_plan::Leaf;
use std::marker::Model;

/// A source over arrays in memory, which it tells, and some of whose calls fail.
#[derive(Drop)]
pub struct MemChunks {
    sure: SureChunks,
    turns: FailingCalls,
}

impl Model for MemChunks {
    ghost use Rattle.chunk_source.specs.InMemory.{MemoryChunks};

    ghost Value = { MemoryChunks };

    ghost view = { λ s. record { sure = s.sure; turns = s.turns } };
}

impl MemChunks {
    /// A source over these arrays. `fails` has the numbers, from 0, of the calls that are to fail. Of several arrays of one name
    /// and version the first one counts.
    pub fn new(arrays: List<LeafArray>, fails: List<u64>) -> Result<MemChunks, Memory>
        requires { AllByRecursion IsStoredArray arrays }
        ensures value { IfOk result (λ source. source ≡ new_chunks arrays fails) }
        ensures succeeds { IsOk result }
    {
        Ok(MemChunks {
            sure: SureChunks::new(arrays),
            turns: FailingCalls::new(fails),
        })
    }

    /// The chunks that were asked for, the first one first.
    pub fn asked(&self) -> &[Asked]
        ensures { result.now ≡ self.now.sure.asked }
    {
        self.sure.asked()
    }
}

impl ChunkSource for MemChunks {
    type Start = ();

    ghost state = { memory_state };

    ghost start = { λ _. tt };

    fn listed(&mut self, leaf: &Leaf) -> Result<List<ChunkAt>, SourceFault>
        requires { Reads (memory_state self.old) leaf.now }
        ensures listed { IfOk result (λ chunks. chunks ≡ listed (memory_state self.old) leaf.now) }
        ensures rising { IfOk result (λ chunks. NumbersRise (numbers_of chunks)) }
        ensures told { IfOk result (λ chunks. (db : Database) → (memory_state self.old).tells db → AreNumbersIn db leaf.now chunks) }
        ensures asked { (memory_state self.new).asked ≡ (memory_state self.old).asked }
        ensures kept { Keeps (memory_state self.old) (memory_state self.new) }
        ensures cause { Blames (memory_state self.old) (memory_state self.new) result }
        ensures turn { TakesTurn self.old.turns self.new.turns result }
    {
        if self.turns.fails_next() {
            return Err(SourceFault::Failed);
        }
        self.sure.listed(leaf)
    }

    fn chunk(&mut self, number: u32, leaf: &Leaf, at: &ChunkAt) -> Result<Chunk, SourceFault>
        requires reads { Reads (memory_state self.old) leaf.now }
        requires listed { IsTrue (is_among at.now (listed (memory_state self.old) leaf.now)) }
        ensures stored { IfOk result (IsStored leaf.now.schema at.now) }
        ensures told { IfOk result (λ chunk. (db : Database) → (memory_state self.old).tells db → IsChunkIn db leaf.now chunk) }
        ensures asked { AsksFor number at.now (memory_state self.old) (memory_state self.new) result }
        ensures kept { Keeps (memory_state self.old) (memory_state self.new) }
        ensures cause { Blames (memory_state self.old) (memory_state self.new) result }
        ensures turn { TakesTurn self.old.turns self.new.turns result }
    {
        if self.turns.fails_next() {
            return Err(SourceFault::Failed);
        }
        self.sure.chunk(number, leaf, at)
    }

    fn damaged(&self) -> Option<u32> {
        None
    }

    fn faults(&self) -> u64 {
        self.turns.faults()
    }
}
