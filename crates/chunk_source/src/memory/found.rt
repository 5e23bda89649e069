//! Chunks of arrays in memory.
ghost use Rattle.std.specs.Prelude.{◌≡◌, IsTrue, IfOk, Contains};
ghost use Rattle.std.specs.List.{AllByRecursion};
ghost use Rattle.std.specs.Option.{option_copied};
ghost use Rattle.array_geom.specs.Link.{NumbersRise, number_order, numbers, is_listed};
ghost use Rattle.logical_plan.specs.Meaning.{Database};
ghost use Rattle.chunk_source.specs.Source.{is_among, numbers_of, IsStored, AreNumbersIn, IsChunkIn};
ghost use Rattle.chunk_source.specs.Found.{IsStoredArray, array_of, database_of, numbers_in, IsRead, listed_of};

use crate::memory::leaf_array::{LeafArray, is_of};
use array_geom::Chunk;
use cell_values::{ChunkAt, List, Memory, compare_numbers, copy_numbers};
use logical_plan::Leaf;
use std::alloc::Global;
use std::cmp::Ordering;

/// The array of a leaf.
fn array_of<'a>(arrays: &'a [LeafArray], leaf: &Leaf) -> Option<&'a LeafArray>
    ensures { option_copied result ≡ array_of arrays.now leaf.now.name leaf.now.version }
{
    arrays.iter().find(|stored| is_of(stored, leaf))
}

fn numbers_of(alloc: Global, chunks: &[Chunk]) -> Result<List<ChunkAt>, Memory>
    ensures { IfOk result (λ found. found ≡ numbers_in chunks.now) }
{
    let mut numbers = List::with_capacity(alloc, chunks.len())?;
    for chunk in chunks {
        numbers.push(copy_numbers(&chunk.at))?;
    }
    Ok(numbers)
}

fn order_of(chunk: &Chunk, at: &ChunkAt) -> Ordering
    ensures { result ≡ number_order chunk.now.at.items at.now.items }
{
    compare_numbers(&chunk.at, at)
}

/// The chunk of a number, among chunks by their rising numbers.
fn chunk_at<'a>(chunks: &'a [Chunk], at: &ChunkAt) -> &'a Chunk
    requires rising { NumbersRise (numbers chunks.now) }
    requires listed { IsTrue (is_listed at.now.items (numbers chunks.now)) }
    ensures number { result.now.at ≡ at.now }
    ensures among { Contains chunks.now result.now }
{
    match chunks.binary_search_by(|chunk| order_of(chunk, at)) {
        Ok(place) => &chunks[place],
        Err(_) => unreachable!(),
    }
}

/// The numbers of the chunks of a leaf, rising. A version 0 has none.
pub(crate) fn listed_in(arrays: &List<LeafArray>, leaf: &Leaf) -> Result<List<ChunkAt>, Memory>
    requires stored { AllByRecursion IsStoredArray arrays.now }
    requires reads { IsRead arrays.now leaf.now }
    ensures listed { IfOk result (λ chunks. chunks ≡ listed_of arrays.now leaf.now) }
    ensures rising { IfOk result (λ chunks. NumbersRise (numbers_of chunks)) }
    ensures told { IfOk result (λ chunks. (db : Database) → db ≡ database_of arrays.now → AreNumbersIn db leaf.now chunks) }
{
    if leaf.version == 0 {
        return Ok(arrays.another());
    }
    match array_of(arrays.as_slice(), leaf) {
        Some(stored) => numbers_of(arrays.allocator(), stored.array.chunks.as_slice()),
        None => Ok(arrays.another()),
    }
}

/// A chunk of a leaf.
pub(crate) fn chunk_in(arrays: &List<LeafArray>, leaf: &Leaf, at: &ChunkAt) -> Result<Chunk, Memory>
    requires stored { AllByRecursion IsStoredArray arrays.now }
    requires reads { IsRead arrays.now leaf.now }
    requires listed { IsTrue (is_among at.now (listed_of arrays.now leaf.now)) }
    ensures stored { IfOk result (IsStored leaf.now.schema at.now) }
    ensures told { IfOk result (λ chunk. (db : Database) → db ≡ database_of arrays.now → IsChunkIn db leaf.now chunk) }
{
    match array_of(arrays.as_slice(), leaf) {
        Some(stored) => chunk_at(stored.array.chunks.as_slice(), at).copy(),
        None => unreachable!(),
    }
}
