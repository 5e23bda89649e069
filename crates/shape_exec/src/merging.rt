//! `merge`.
ghost use Rattle.std.specs.Prelude.{◌≡◌, true, None, IsTrue, IfOk};
ghost use Rattle.cell_values.specs.Schemas.{IsValid};
ghost use Rattle.array_rows.specs.Boxes.{is_inside, within};
ghost use Rattle.array_rows.specs.Rows.{Coordinate, IsRising, put_all};
ghost use Rattle.array_geom.specs.Geometry.{HasFrame, overlaps};
ghost use Rattle.array_geom.specs.Inner.Ranges.{IsGrid, is_in_grid};
ghost use Rattle.array_geom.specs.Link.{Is};
ghost use Rattle.array_parts.specs.Cores.{HasCells, HaveCells, cores_of, meant_by_cores};
ghost use Rattle.area_cells.specs.Found.{AreFound, found_rows};
ghost use Rattle.area_cells.specs.Pieces.{IsPartAt};
ghost use Rattle.logical_plan.specs.ShapeMeant.{merge_meant};
ghost use Rattle.logical_plan.specs.ShapeSchemas.{merge_schema};
ghost use Rattle.logical_plan.specs.Typing.{merges};

use crate::found_chunks::chunk_of_both_found;
use crate::pair_numbers::{numbers_of_both, numbers_of_side};
use afl_outside::Gate;
use area_cells::{Found, array_of_parts, found_in};
use array_geom::{Chunk, ChunkedArray, Grid, frame, grid_of, margins_of};
use cell_values::{Bounds, ChunkAt, List, Margins, Memory, Schema};
use chunk_workers::{Crew, Work, over_pieces};
use std::thread::Threads;

/// A source's cells in a box, by their places in a grid that holds it.
fn found_of_side<'a>(
    array: &'a ChunkedArray,
    area: &Bounds,
    grid: &Grid,
) -> Result<List<Found<'a>>, Memory>
    requires cells { HaveCells array.now.schema array.now.margins.items array.now.chunks }
    requires grid { IsGrid grid.now }
    requires held { (c : Coordinate) → is_inside area.now c ≡ true → is_in_grid grid.now.low.items grid.now.lengths.items c ≡ true }
    ensures found { IfOk result (AreFound grid.now (within area.now (cores_of array.now))) }
    ensures rise { IfOk result (λ found. IsRising (found_rows grid.now found)) }
{
    found_in(
        &array.schema,
        &array.margins,
        array.chunks.as_slice(),
        area,
        grid,
    )
}

/// The merged chunk of this number: the left's cells, and the right's where the left has none.
fn chunk_of_both(
    left: &ChunkedArray,
    right: &ChunkedArray,
    schema: &Schema,
    margins: &Margins,
    number: &ChunkAt,
) -> Result<Chunk, Memory>
    requires left { HaveCells left.now.schema left.now.margins.items left.now.chunks }
    requires right { HaveCells right.now.schema right.now.margins.items right.now.chunks }
    requires framed { HasFrame schema.now margins.now.items number.now.items }
    ensures { IfOk result (IsPartAt schema.now margins.now.items (put_all (cores_of left.now) (cores_of right.now)) number.now) }
{
    let area = frame(schema, margins, number);
    let grid = grid_of(schema, margins, number);
    let above = found_of_side(left, &area, &grid)?;
    let below = found_of_side(right, &area, &grid)?;
    let made = chunk_of_both_found(number, &grid, above, below)?;
    Ok(made)
}

/// Two arrays, and the schema and the margins of the chunks of both.
#[derive(Drop)]
struct OfBoth<'a> {
    left: &'a ChunkedArray,
    right: &'a ChunkedArray,
    schema: &'a Schema,
    margins: &'a Margins,
}

impl Work<ChunkAt, Chunk> for OfBoth<'_> {
    ghost accepts = { λ of number. HaveCells of.left.now.schema of.left.now.margins.items of.left.now.chunks
        × HaveCells of.right.now.schema of.right.now.margins.items of.right.now.chunks
        × HasFrame of.schema.now of.margins.now.items number.items };

    ghost gives = { λ of number made. IsPartAt of.schema.now of.margins.now.items (put_all (cores_of of.left.now) (cores_of of.right.now)) number made };

    fn size(&self, number: &ChunkAt) -> usize {
        grid_of(self.schema, self.margins, number).volume() as usize
    }

    fn work(&self, number: ChunkAt) -> Result<Chunk, Memory> {
        chunk_of_both(self.left, self.right, self.schema, self.margins, &number)
    }
}

/// Two arrays that are not broken, merged.
#[tactic(auto, using(array_geom::proofs::MarginLaws::overlap_each, array_geom::proofs::MarginLaws::overlap_places))]
fn of_whole<R: Threads + Sync, G: Gate>(
    crew: &mut Crew<'_, R, G>,
    left: &ChunkedArray,
    right: &ChunkedArray,
    schema: &Schema,
) -> Result<ChunkedArray, Memory>
    requires left_whole { left.now.broken ≡ None }
    requires right_whole { right.now.broken ≡ None }
    requires left { HaveCells left.now.schema left.now.margins.items left.now.chunks }
    requires right { HaveCells right.now.schema right.now.margins.items right.now.chunks }
    requires typed { IsTrue (merges left.now.schema right.now.schema) }
    requires schema { schema.now ≡ merge_schema left.now.schema right.now.schema }
    requires valid { IsValid schema.now }
    ensures array { IfOk result (λ made. Is made (merge_meant (meant_by_cores left.now) (meant_by_cores right.now))) }
    ensures margins { IfOk result (λ made. made.margins.items ≡ overlaps schema.now.dimensions) }
{
    let margins = margins_of(schema);
    let of_left = numbers_of_side(left, schema)?;
    let of_right = numbers_of_side(right, schema)?;
    let numbers = numbers_of_both(of_left, of_right)?;
    let of = OfBoth {
        left,
        right,
        schema,
        margins: &margins,
    };
    let parts = over_pieces(crew, numbers, &of)?;
    array_of_parts(schema, &margins, parts)
}

/// The left's cells, and the right's where the left has none. What the margins of the two hold doesn't matter.
pub fn merge<R: Threads + Sync, G: Gate>(
    crew: &mut Crew<'_, R, G>,
    left: ChunkedArray,
    right: ChunkedArray,
    target: &Schema,
) -> Result<ChunkedArray, Memory>
    requires left_whole { left.broken ≡ None }
    requires right_whole { right.broken ≡ None }
    requires left_cells { HasCells left }
    requires right_cells { HasCells right }
    requires typed { IsTrue (merges left.schema right.schema) }
    requires target { target.now ≡ merge_schema left.schema right.schema }
    requires valid { IsValid target.now }
    ensures array { IfOk result (λ made. Is made (merge_meant (meant_by_cores left) (meant_by_cores right))) }
    ensures margins { IfOk result (λ made. made.margins.items ≡ overlaps target.now.dimensions) }
{
    of_whole(crew, &left, &right, target)
}
