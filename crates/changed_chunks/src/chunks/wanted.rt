//! The chunks of its target that an insert wants.
ghost use Rattle.std.specs.Prelude.{◌≡◌, IfOk, IsTrue};
ghost use Rattle.array_geom.specs.Geometry.{HasFrame};
ghost use Rattle.array_geom.specs.Link.{is_listed, numbers};
ghost use Rattle.array_parts.specs.Cores.{cores_of};
ghost use Rattle.changed_chunks.specs.Inner.Input.{CanBeStored};
ghost use Rattle.changed_chunks.specs.Inner.Reach.{places_near, reach};
ghost use Rattle.changed_chunks.specs.Wanted.{is_wanted, target_wanted};

use crate::chunks::alone::order_of;
use crate::chunks::versions::has_row_in;
use area_cells::bounds_of;
use array_geom::{Boxes, ChunkedArray, chunk_of, frame, has_core};
use cell_values::{Bounds, ChunkAt, List, Margins, Memory, Schema};

/// The places of the array in a chunk's frame.
fn places_near(schema: &Schema, margins: &Margins, number: &ChunkAt) -> Bounds
    requires { HasFrame schema.now margins.now.items number.now.items }
    ensures { result ≡ places_near schema.now.dimensions margins.now.items number.now.items }
{
    let bounds = bounds_of(schema.dimensions.as_slice());
    frame(schema, margins, number).meet(&bounds)
}

/// The box of all frames that meet the core of a chunk.
fn reach(schema: &Schema, margins: &Margins, number: &ChunkAt) -> Bounds
    requires { HasFrame schema.now margins.now.items number.now.items }
    ensures { result ≡ reach schema.now.dimensions margins.now.items number.now.items }
{
    let near = places_near(schema, margins, number);
    let first = chunk_of(schema, &near.lo);
    let last = chunk_of(schema, &near.hi);
    let Bounds { lo, hi: _ } = frame(schema, margins, &first);
    let Bounds { lo: _, hi } = frame(schema, margins, &last);
    Bounds { lo, hi }
}

/// Whether an array has a chunk of this number, whose core then holds a row.
fn has_chunk(put: &ChunkedArray, number: &ChunkAt) -> bool
    requires { CanBeStored put.now }
    ensures { IsTrue result → IsTrue (is_listed number.now.items (numbers put.now.chunks)) }
{
    let chunks = put.chunks.as_slice();
    match chunks.binary_search_by(|chunk| order_of(chunk, number)) {
        Ok(_) => true,
        Err(_) => false,
    }
}

/// Whether a stored chunk is wanted where the rows of an array are put in.
fn is_wanted(put: &ChunkedArray, number: &ChunkAt) -> Result<bool, Memory>
    requires { CanBeStored put.now }
    ensures { IfOk result (λ wanted. wanted ≡ is_wanted put.now.schema.dimensions (cores_of put.now) number.now.items) }
{
    if !has_core(&put.schema, number) {
        return Ok(false);
    }
    if has_chunk(put, number) {
        return Ok(true);
    }
    let area = reach(&put.schema, &put.margins, number);
    has_row_in(put, &area)
}

/// The stored chunks that are wanted where the rows of an array are put in.
pub(crate) fn wanted_chunks(
    put: &ChunkedArray,
    stored: List<ChunkAt>,
) -> Result<List<ChunkAt>, Memory>
    requires { CanBeStored put.now }
    ensures { IfOk result (λ wanted. wanted ≡ target_wanted put.now.schema.dimensions (cores_of put.now) stored) }
{
    let mut wanted = stored.another();
    for number in stored.into_vec() {
        if is_wanted(put, &number)? {
            wanted.push(number)?;
        }
    }
    Ok(wanted)
}
