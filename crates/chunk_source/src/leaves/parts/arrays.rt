//! Arrays of chunks that were read.
ghost use Rattle.std.specs.Prelude.{◌≡◌, false, None, IsTrue, IfOk};
ghost use Rattle.std.specs.List.{AllByRecursion, flat_map};
ghost use Rattle.cell_values.specs.Schemas.{IsValid};
ghost use Rattle.array_rows.specs.Rows.{in_order};
ghost use Rattle.array_geom.specs.Chunks.{IsChunk};
ghost use Rattle.array_geom.specs.Geometry.{overlaps};
ghost use Rattle.array_geom.specs.Link.{Is, NumbersRise, chunk_rows, numbers};
ghost use Rattle.logical_plan.specs.Meaning.{whole};
ghost use Rattle.chunk_source.specs.Inner.Alone.{have_no_overlap, stand_alone};
ghost use Rattle.chunk_source.specs.Read.{IsRead};

use crate::leaves::parts::gathering::rows_in_order;
use array_geom::{Chunk, ChunkedArray, margins_of};
use cell_values::{ChunkAt, Dimension, List, Memory, Schema};
use chunk_cells::assemble;

/// Whether the chunks that were read hold no cell of one that was not: they are all, or no chunk reaches beyond its core.
pub(crate) fn stand_alone(schema: &Schema, stored: &[ChunkAt], wanted: &[ChunkAt]) -> bool
    ensures { result ≡ stand_alone schema.now.dimensions stored.now wanted.now }
{
    wanted.len() == stored.len() || have_no_overlap(schema.dimensions.as_slice())
}

fn have_no_overlap(dims: &[Dimension]) -> bool
    ensures { result ≡ have_no_overlap dims.now }
{
    match dims {
        [] => true,
        [d, dims @ ..] => d.overlap == 0 && have_no_overlap(dims),
    }
}

/// The array whose chunks these are.
fn as_they_stand(schema: &Schema, chunks: List<Chunk>) -> Result<ChunkedArray, Memory>
    requires { IsValid schema.now }
    ensures schema { IfOk result (λ array. array.schema ≡ schema.now) }
    ensures margins { IfOk result (λ array. array.margins.items ≡ overlaps schema.now.dimensions) }
    ensures whole { IfOk result (λ array. array.broken ≡ None) }
    ensures chunks { IfOk result (λ array. array.chunks ≡ chunks) }
{
    Ok(ChunkedArray {
        schema: schema.copy()?,
        margins: margins_of(schema),
        chunks,
        broken: None,
    })
}

/// The array of the rows of these chunks, those of their margins too.
fn assembled(schema: &Schema, chunks: List<Chunk>) -> Result<ChunkedArray, Memory>
    requires valid { IsValid schema.now }
    requires chunks { AllByRecursion (IsChunk schema.now (overlaps schema.now.dimensions)) chunks }
    ensures array { IfOk result (λ array. Is array (whole schema.now
        (in_order (flat_map (chunk_rows schema.now.dimensions (overlaps schema.now.dimensions)) chunks)))) }
    ensures margins { IfOk result (λ array. array.margins.items ≡ overlaps schema.now.dimensions) }
{
    let margins = margins_of(schema);
    let rows = rows_in_order(schema, &margins, chunks)?;
    assemble(schema, &margins, rows.as_slice())
}

/// The array of chunks that were read: as they stand where they hold no cell of another, else with a chunk for each core that has
/// one of their cells.
pub(crate) fn part_array(
    schema: &Schema,
    chunks: List<Chunk>,
    alone: bool,
) -> Result<ChunkedArray, Memory>
    requires valid { IsValid schema.now }
    requires chunks { AllByRecursion (IsChunk schema.now (overlaps schema.now.dimensions)) chunks }
    requires rise { NumbersRise (numbers chunks) }
    ensures read { IfOk result (IsRead schema.now) }
    ensures alone { IsTrue alone → IfOk result (λ array. array.chunks ≡ chunks) }
    ensures together { alone ≡ false → IfOk result (λ array. Is array (whole schema.now
        (in_order (flat_map (chunk_rows schema.now.dimensions (overlaps schema.now.dimensions)) chunks)))) }
{
    if alone {
        as_they_stand(schema, chunks)
    } else {
        assembled(schema, chunks)
    }
}
