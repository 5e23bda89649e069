//! Chunks of which none reaches beyond its core: the rows of an array put over stored chunks, chunk by chunk.
ghost use Rattle.std.specs.Prelude.{◌≡◌, IsTrue, IfOk};
ghost use Rattle.std.specs.List.{AllByRecursion};
ghost use Rattle.array_rows.specs.Rows.{put_all};
ghost use Rattle.array_geom.specs.Geometry.{overlaps};
ghost use Rattle.array_geom.specs.Link.{IsPart, number_order, numbers};
ghost use Rattle.array_parts.specs.Cores.{cores_of};
ghost use Rattle.array_parts.specs.Placed.{HasPlaces};
ghost use Rattle.chunk_source.specs.Inner.Alone.{have_no_overlap};
ghost use Rattle.changed_chunks.specs.Inner.Input.{AreStoredChunks, CanBeStored, stored_rows};
ghost use Rattle.changed_chunks.specs.Inner.Writes.{IsInsertOf};

use array_geom::{Changed, Chunk, ChunkedArray};
use cell_values::{ChunkAt, Dimension, List, Memory, compare_numbers};
use chunk_cells::put_over;
use std::cmp::Ordering;

/// Whether no chunk reaches beyond its core.
pub(crate) fn have_no_overlap(dims: &[Dimension]) -> bool
    ensures { result ≡ have_no_overlap dims.now }
{
    match dims {
        [] => true,
        [d, dims @ ..] => d.overlap == 0 && have_no_overlap(dims),
    }
}

/// How a chunk's number compares with another.
pub(crate) fn order_of(chunk: &Chunk, at: &ChunkAt) -> Ordering
    ensures { result ≡ number_order chunk.now.at.items at.now.items }
{
    compare_numbers(&chunk.at, at)
}

/// A chunk of an array put over the stored chunk of its number, if there is one.
fn chunk_over(put: &ChunkedArray, old: &[Chunk], new: &Chunk) -> Result<Chunk, Memory>
    requires put { CanBeStored put.now }
    requires old { AreStoredChunks put.now.schema old.now }
    requires none { IsTrue (have_no_overlap put.now.schema.dimensions) }
    requires places { HasPlaces put.now.schema (overlaps put.now.schema.dimensions) new.now }
    requires part { IsPart put.now.schema.dimensions (overlaps put.now.schema.dimensions) (cores_of put.now) new.now }
    ensures number { IfOk result (λ made. made.at ≡ new.now.at) }
    ensures part { IfOk result (IsPart put.now.schema.dimensions (overlaps put.now.schema.dimensions)
        (put_all (cores_of put.now) (stored_rows put.now.schema old.now))) }
{
    match old.binary_search_by(|chunk| order_of(chunk, &new.at)) {
        Ok(place) => put_over(&old[place], new),
        Err(_) => new.copy(),
    }
}

/// The chunks of an array, each put over the stored one of its number.
fn chunks_over(put: &ChunkedArray, old: &[Chunk]) -> Result<List<Chunk>, Memory>
    requires put { CanBeStored put.now }
    requires old { AreStoredChunks put.now.schema old.now }
    requires none { IsTrue (have_no_overlap put.now.schema.dimensions) }
    ensures numbers { IfOk result (λ made. numbers made ≡ numbers put.now.chunks) }
    ensures parts { IfOk result (AllByRecursion (IsPart put.now.schema.dimensions (overlaps put.now.schema.dimensions)
        (put_all (cores_of put.now) (stored_rows put.now.schema old.now)))) }
{
    let mut made = put.chunks.another();
    for new in put.chunks.as_slice() {
        made.push(chunk_over(put, old, new)?)?;
    }
    Ok(made)
}

/// The chunks that are written where the rows of an array whose chunks have no overlap are put over those of stored chunks: the
/// array's own numbers.
pub(crate) fn put_over_cores(put: &ChunkedArray, old: &[Chunk]) -> Result<Changed, Memory>
    requires put { CanBeStored put.now }
    requires old { AreStoredChunks put.now.schema old.now }
    requires none { IsTrue (have_no_overlap put.now.schema.dimensions) }
    ensures { IfOk result (IsInsertOf put.now.schema (cores_of put.now) (stored_rows put.now.schema old.now)) }
{
    let chunks = chunks_over(put, old)?;
    Ok(Changed {
        schema: put.schema.copy()?,
        whole: false,
        chunks,
    })
}
