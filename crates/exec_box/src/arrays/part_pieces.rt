//! The part of an array in a box chunk by chunk.
ghost use Rattle.std.specs.Prelude.{◌≡◌, ◌+◌, ◌≤◌, ◌++◌, None, length, IfOk};
ghost use Rattle.std.specs.List.{AllByRecursion, AllZip};
ghost use Rattle.cell_values.specs.Schemas.{IsValid};
ghost use Rattle.array_rows.specs.Boxes.{bounds_of, is_inside, meet, within, corners};
ghost use Rattle.array_geom.specs.Geometry.{HasFrame, frame as frame_of, overlaps};
ghost use Rattle.array_geom.specs.Link.{Is, NumbersRise, numbers};
ghost use Rattle.array_parts.specs.Cores.{HaveCells, cores_of, meant_by_cores};
ghost use Rattle.array_parts.specs.Placed.{HasPlaces};
ghost use Rattle.chunk_cells.specs.Inner.Numbers.{numbers_in};
ghost use Rattle.area_cells.specs.Pieces.{IsPartAt};
ghost use Rattle.logical_plan.specs.BoxOps.{subarray_rows};
ghost use Rattle.logical_plan.specs.PlanSchema.{subarray_schema};
ghost use Rattle.exec_box.specs.Parts.{part_meant};
ghost use Rattle.exec_box.specs.Inner.Reached.{AreReached, chunks_from};
ghost use Rattle.exec_box.specs.Inner.Spread.{raised};

use crate::arrays::building::bounds;
use crate::arrays::numbers::{in_order, push_corners};
use crate::arrays::turns::in_turn;
use crate::rows::part_of_rows;
use area_cells::{array_of_parts, chunk_of_rows, rows_in_area};
use array_geom::{Boxes, Chunk, ChunkedArray, frame, grid_of, margins_of};
use cell_values::{Bounds, ChunkAt, Coord, List, Margins, Memory, Row, Schema};
use chunk_workers::Work;

/// Adds numbers, each above that of a low coordinate.
fn push_raised(out: &mut Coord, at: &[i64], low: &[i64])
    requires { length out.old.items + length at.now ≤ 6 }
    ensures { out.new.items ≡ out.old.items ++ raised at.now low.now }
{
    match at {
        [] => {}
        [number, at @ ..] => match low {
            [] => {
                out.push(*number);
                push_raised(out, at, low);
            }
            [least, low @ ..] => {
                out.push(number.saturating_add(*least));
                push_raised(out, at, low);
            }
        },
    }
}

/// A box that is to be moved to 0 together with a low coordinate.
fn raised_box(area: &Bounds, low: &Coord) -> Bounds
    ensures { result ≡ corners (raised area.now.lo.items low.now.items) (raised area.now.hi.items low.now.items) }
{
    let mut lo = Coord::new();
    let mut hi = Coord::new();
    push_raised(&mut lo, area.lo.as_slice(), low.as_slice());
    push_raised(&mut hi, area.hi.as_slice(), low.as_slice());
    Bounds { lo, hi }
}

/// The part's rows in a box.
fn part_in(array: &ChunkedArray, area: &Bounds, target: &Bounds) -> Result<List<Row>, Memory>
    requires cells { HaveCells array.now.schema array.now.margins.items array.now.chunks }
    ensures { IfOk result (λ rows. rows ≡ within target.now (subarray_rows (meet (bounds_of array.now.schema.dimensions) area.now) (cores_of array.now))) }
{
    let area = bounds(&array.schema).meet(area);
    let from = raised_box(target, &area.lo);
    let rows = rows_in_area(
        &array.schema,
        &array.margins,
        array.chunks.as_slice(),
        &from,
    )?;
    part_of_rows(&rows, &area)
}

/// An array, the box whose part is to be taken, and the schema and the margins of the part's chunks.
#[derive(Drop)]
struct OfPart<'a> {
    array: &'a ChunkedArray,
    area: &'a Bounds,
    schema: &'a Schema,
    margins: &'a Margins,
}

impl Work<ChunkAt, Chunk> for OfPart<'_> {
    ghost accepts = { λ of number. HaveCells of.array.now.schema of.array.now.margins.items of.array.now.chunks
        × HasFrame of.schema.now of.margins.now.items number.items };

    ghost gives = { λ of number made. IsPartAt of.schema.now of.margins.now.items
        (subarray_rows (meet (bounds_of of.array.now.schema.dimensions) of.area.now) (cores_of of.array.now)) number made };

    fn size(&self, number: &ChunkAt) -> usize {
        grid_of(self.schema, self.margins, number).volume() as usize
    }

    fn work(&self, number: ChunkAt) -> Result<Chunk, Memory> {
        chunk_of_part(self.array, self.area, self.schema, self.margins, &number)
    }
}

/// The part's chunk of this number.
fn chunk_of_part(
    array: &ChunkedArray,
    area: &Bounds,
    schema: &Schema,
    margins: &Margins,
    number: &ChunkAt,
) -> Result<Chunk, Memory>
    requires cells { HaveCells array.now.schema array.now.margins.items array.now.chunks }
    requires framed { HasFrame schema.now margins.now.items number.now.items }
    ensures { IfOk result (IsPartAt schema.now margins.now.items
        (subarray_rows (meet (bounds_of array.now.schema.dimensions) area.now) (cores_of array.now)) number.now) }
{
    let target = frame(schema, margins, number);
    let rows = part_in(array, area, &target)?;
    let made = chunk_of_rows(schema, margins, number, rows)?;
    Ok(made)
}

/// The numbers of the chunks into which the cells of a box come, in any order.
fn reached_by_part(
    array: &ChunkedArray,
    area: &Bounds,
    schema: &Schema,
) -> Result<List<ChunkAt>, Memory>
    requires { HaveCells array.now.schema array.now.margins.items array.now.chunks }
    ensures { IfOk result (AreReached array.now.schema.dimensions schema.now.dimensions (is_inside area.now)
        (chunks_from array.now.schema.dimensions area.now.lo.items) array.now.chunks) }
{
    let mut found = array.schema.dimensions.another();
    let chunks = array.chunks.as_slice();
    for k in 0..chunks.len() {
        push_corners(&mut found, &array.schema, schema, area, &chunks[k].at)?;
    }
    Ok(found)
}

/// The numbers of the chunks into which the cells of a box come.
fn numbers_of_part(
    array: &ChunkedArray,
    area: &Bounds,
    schema: &Schema,
) -> Result<List<ChunkAt>, Memory>
    requires { HaveCells array.now.schema array.now.margins.items array.now.chunks }
    ensures in_order { IfOk result (λ found. NumbersRise (numbers_in found)) }
    ensures reached { IfOk result (AreReached array.now.schema.dimensions schema.now.dimensions
        (is_inside (meet (bounds_of array.now.schema.dimensions) area.now))
        (chunks_from array.now.schema.dimensions (meet (bounds_of array.now.schema.dimensions) area.now).lo.items) array.now.chunks) }
{
    let area = bounds(&array.schema).meet(area);
    let found = reached_by_part(array, &area, schema)?;
    in_order(found)
}

/// The part of an array that is not broken, chunk by chunk.
#[tactic(auto, using(array_geom::proofs::MarginLaws::overlap_each, array_geom::proofs::MarginLaws::overlap_places))]
pub(crate) fn part_by_pieces(
    schema: &Schema,
    array: &ChunkedArray,
    area: &Bounds,
) -> Result<ChunkedArray, Memory>
    requires whole { array.now.broken ≡ None }
    requires cells { HaveCells array.now.schema array.now.margins.items array.now.chunks }
    requires valid { IsValid schema.now }
    requires schema { schema.now ≡ subarray_schema area.now array.now.schema }
    ensures array { IfOk result (λ part. Is part (part_meant area.now (meant_by_cores array.now))) }
    ensures margins { IfOk result (λ part. part.margins.items ≡ overlaps schema.now.dimensions) }
{
    let margins = margins_of(schema);
    let numbers = numbers_of_part(array, area, schema)?;
    let of = OfPart {
        array,
        area,
        schema,
        margins: &margins,
    };
    let parts = in_turn(numbers, &of)?;
    array_of_parts(schema, &margins, parts)
}
