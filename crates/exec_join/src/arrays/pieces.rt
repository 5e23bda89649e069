//! Joins chunk by chunk: each chunk from the rows that both arrays have in its frame.
ghost use Rattle.std.specs.Prelude.{◌≡◌, None, IfOk};
ghost use Rattle.std.specs.List.{AllByRecursion};
ghost use Rattle.cell_values.specs.Schemas.{IsValid};
ghost use Rattle.array_geom.specs.Geometry.{HasFrame, overlaps};
ghost use Rattle.array_geom.specs.Link.{Is, IsPart, numbers};
ghost use Rattle.array_parts.specs.Cores.{HasCells, HaveCells, cores_of, meant_by_cores};
ghost use Rattle.array_parts.specs.Placed.{HasPlaces};
ghost use Rattle.chunk_cells.specs.Frames.{HasFrames};
ghost use Rattle.area_cells.specs.Pieces.{IsPartAt};
ghost use Rattle.logical_plan.specs.Joins.{join_rows};
ghost use Rattle.logical_plan.specs.PlanSchema.{join_schema};
ghost use Rattle.exec_join.specs.Meant.{join_meant};

use crate::arrays::meeting::meet;
use afl_outside::Gate;
use area_cells::{array_of_parts, found_in, numbers_of};
use array_geom::{Chunk, ChunkedArray, frame, grid_of, margins_of};
use cell_values::{ChunkAt, List, Margins, Memory, Row, Schema};
use chunk_workers::{Crew, Work, over_pieces};
use std::thread::Threads;

/// The join in a chunk's frame.
fn join_part(
    left: &ChunkedArray,
    right: &ChunkedArray,
    schema: &Schema,
    margins: &Margins,
    number: &ChunkAt,
) -> Result<Chunk, Memory>
    requires left_cells { HaveCells left.now.schema left.now.margins.items left.now.chunks }
    requires right_cells { HaveCells right.now.schema right.now.margins.items right.now.chunks }
    requires framed { HasFrame schema.now margins.now.items number.now.items }
    ensures number { IfOk result (λ made. made.at ≡ number.now) }
    ensures places { IfOk result (HasPlaces schema.now margins.now.items) }
    ensures part { IfOk result (IsPart schema.now.dimensions margins.now.items (join_rows (cores_of left.now) (cores_of right.now))) }
{
    let area = frame(schema, margins, number);
    let grid = grid_of(schema, margins, number);
    let from_left = found_in(
        &left.schema,
        &left.margins,
        left.chunks.as_slice(),
        &area,
        &grid,
    )?;
    let from_right = found_in(
        &right.schema,
        &right.margins,
        right.chunks.as_slice(),
        &area,
        &grid,
    )?;
    let made = meet(number, &grid, from_left, from_right)?;
    Ok(made)
}

/// Two arrays, and the schema and the margins of the array whose chunks are to be joined of them.
#[derive(Drop)]
struct OfBoth<'a> {
    left: &'a ChunkedArray,
    right: &'a ChunkedArray,
    schema: &'a Schema,
    margins: &'a Margins,
}

impl Work<ChunkAt, Chunk> for OfBoth<'_> {
    ghost accepts = { λ of number. HaveCells of.left.now.schema of.left.now.margins.items of.left.now.chunks
        × HaveCells of.right.now.schema of.right.now.margins.items of.right.now.chunks
        × HasFrame of.schema.now of.margins.now.items number.items };

    ghost gives = { λ of number made. IsPartAt of.schema.now of.margins.now.items (join_rows (cores_of of.left.now) (cores_of of.right.now)) number made };

    fn size(&self, number: &ChunkAt) -> usize {
        grid_of(self.schema, self.margins, number).volume() as usize
    }

    fn work(&self, number: ChunkAt) -> Result<Chunk, Memory> {
        join_part(self.left, self.right, self.schema, self.margins, &number)
    }
}

fn join_parts<R: Threads + Sync, G: Gate>(
    crew: &mut Crew<'_, R, G>,
    left: &ChunkedArray,
    right: &ChunkedArray,
    schema: &Schema,
    margins: &Margins,
) -> Result<List<Chunk>, Memory>
    requires left_cells { HaveCells left.now.schema left.now.margins.items left.now.chunks }
    requires right_cells { HaveCells right.now.schema right.now.margins.items right.now.chunks }
    requires schema { schema.now ≡ join_schema left.now.schema right.now.schema }
    requires frames { HasFrames schema.now margins.now.items }
    ensures numbers { IfOk result (λ parts. numbers parts ≡ numbers left.now.chunks) }
    ensures places { IfOk result (AllByRecursion (HasPlaces schema.now margins.now.items)) }
    ensures parts { IfOk result (AllByRecursion (IsPart schema.now.dimensions margins.now.items (join_rows (cores_of left.now) (cores_of right.now)))) }
{
    let pieces = numbers_of(&left.chunks)?;
    let of = OfBoth {
        left,
        right,
        schema,
        margins,
    };
    over_pieces(crew, pieces, &of)
}

/// The cells of two arrays side by side at each coordinate where both have one, in chunks of this schema, which is that of their
/// join. What the margins of the two hold doesn't matter.
#[tactic(auto, using(array_geom::proofs::MarginLaws::overlap_each, array_geom::proofs::MarginLaws::overlap_places))]
pub fn join<R: Threads + Sync, G: Gate>(
    crew: &mut Crew<'_, R, G>,
    left: ChunkedArray,
    right: ChunkedArray,
    schema: &Schema,
) -> Result<ChunkedArray, Memory>
    requires left_whole { left.broken ≡ None }
    requires right_whole { right.broken ≡ None }
    requires left_cells { HasCells left }
    requires right_cells { HasCells right }
    requires schema { schema.now ≡ join_schema left.schema right.schema }
    requires valid { IsValid schema.now }
    ensures array { IfOk result (λ made. Is made (join_meant schema.now (meant_by_cores left) (meant_by_cores right))) }
    ensures margins { IfOk result (λ made. made.margins.items ≡ overlaps schema.now.dimensions) }
{
    let margins = margins_of(schema);
    let parts = join_parts(crew, &left, &right, schema, &margins)?;
    array_of_parts(schema, &margins, parts)
}
