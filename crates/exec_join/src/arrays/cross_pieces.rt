//! Cross joins chunk by chunk: each chunk from the rows of both arrays that come into its frame.
ghost use Rattle.std.specs.Prelude.{◌≡◌, ◌+◌, ◌≤◌, ◌++◌, None, length, take, drop, IsTrue, IfOk};
ghost use Rattle.cell_values.specs.Schemas.{IsValid};
ghost use Rattle.array_rows.specs.Boxes.{corners, within};
ghost use Rattle.array_geom.specs.Geometry.{HasFrame, overlaps};
ghost use Rattle.array_geom.specs.Link.{Is, numbers};
ghost use Rattle.array_parts.specs.Cores.{HaveCells, cores_of, meant_by_cores};
ghost use Rattle.area_cells.specs.Pieces.{IsPartAt};
ghost use Rattle.logical_plan.specs.Joins.{cross_rows};
ghost use Rattle.logical_plan.specs.PlanSchema.{cross_schema};
ghost use Rattle.logical_plan.specs.Typing.{pairs_dimensions};
ghost use Rattle.exec_join.specs.Meant.{cross_meant};
ghost use Rattle.exec_join.specs.Inner.Pieces.{paired_place, set_aside};

use crate::arrays::cross_numbers::{crossed_numbers, unpaired_numbers};
use crate::cross::{cross_of_rows, right_places};
use area_cells::{array_of_parts, chunk_of_rows, rows_in_area};
use array_geom::{Chunk, ChunkedArray, frame, grid_of, margins_of};
use cell_values::{
    Bounds, ChunkAt, Coord, Dimension, List, Margins, Memory, Row, Schema, number_at,
};
use chunk_workers::Work;
use exec_box::in_turn;
use logical_plan::Pair;

/// The left dimension with which a right one is paired.
fn paired_place(pairs: &[Pair], place: usize) -> Option<u32>
    ensures { result ≡ paired_place pairs.now place }
{
    match pairs {
        [] => None,
        [pair, pairs @ ..] => {
            if pair.right as usize == place {
                Some(pair.left)
            } else {
                paired_place(pairs, place)
            }
        }
    }
}

/// Adds a right corner: the paired numbers of a left one at their places, and the others at the other ones.
fn push_aside(
    out: &mut Coord,
    at: &[i64],
    corner: &Coord,
    pairs: &[Pair],
    dims: &[Dimension],
    place: usize,
)
    requires room { length out.old.items + length dims.now ≤ 6 }
    requires place { place + length dims.now ≤ 6 }
    ensures { out.new.items ≡ out.old.items ++ set_aside pairs.now corner.now.items place dims.now at.now }
{
    match dims {
        [] => {}
        [_, dims @ ..] => match paired_place(pairs, place) {
            Some(left) => {
                out.push(number_at(corner, left as usize));
                push_aside(out, at, corner, pairs, dims, place + 1);
            }
            None => match at {
                [] => {}
                [number, at @ ..] => {
                    out.push(*number);
                    push_aside(out, at, corner, pairs, dims, place + 1);
                }
            },
        },
    }
}

fn push_each(out: &mut Coord, numbers: &[i64])
    requires { length out.old.items + length numbers.now ≤ 6 }
    ensures { out.new.items ≡ out.old.items ++ numbers.now }
{
    for number in numbers {
        out.push(*number);
    }
}

fn first_numbers(at: &Coord, count: usize) -> Coord
    requires { count ≤ length at.now.items }
    ensures { result.items ≡ take count at.now.items }
{
    let mut first = Coord::new();
    push_each(&mut first, &at.as_slice()[..count]);
    first
}

/// A box of the cross join in the left array's dimensions.
fn left_box(area: &Bounds, count: usize) -> Bounds
    requires low { count ≤ length area.now.lo.items }
    requires high { count ≤ length area.now.hi.items }
    ensures { result ≡ corners (take count area.now.lo.items) (take count area.now.hi.items) }
{
    Bounds {
        lo: first_numbers(&area.lo, count),
        hi: first_numbers(&area.hi, count),
    }
}

/// A corner of a box of the cross join in the right array's dimensions.
fn right_corner(right: &Schema, pairs: &[Pair], corner: &Coord, at: &Coord, count: usize) -> Coord
    requires valid { IsValid right.now }
    requires count { count ≤ length at.now.items }
    ensures { result.items ≡ set_aside pairs.now corner.now.items 0 right.now.dimensions (drop count at.now.items) }
{
    let dims = right.dimensions.as_slice();
    let mut out = Coord::new();
    push_aside(&mut out, &at.as_slice()[count..], corner, pairs, dims, 0);
    out
}

/// The cross-joined rows in a box.
fn crossed_in(
    left: &ChunkedArray,
    right: &ChunkedArray,
    pairs: &[Pair],
    schema: &Schema,
    area: &Bounds,
) -> Result<List<Row>, Memory>
    requires left_cells { HaveCells left.now.schema left.now.margins.items left.now.chunks }
    requires right_cells { HaveCells right.now.schema right.now.margins.items right.now.chunks }
    requires schema { schema.now ≡ cross_schema pairs.now left.now.schema right.now.schema }
    requires valid { IsValid schema.now }
    requires pairs { IsTrue (pairs_dimensions pairs.now left.now.schema right.now.schema) }
    requires low { length area.now.lo.items ≡ length schema.now.dimensions }
    requires high { length area.now.hi.items ≡ length schema.now.dimensions }
    ensures { IfOk result (λ rows. rows ≡ within area.now (cross_rows pairs.now (cores_of left.now) (cores_of right.now))) }
{
    let _ = schema;
    let count = left.schema.dimensions.len();
    let of_left = left_box(area, count);
    let of_right = Bounds {
        lo: right_corner(&right.schema, pairs, &of_left.lo, &area.lo, count),
        hi: right_corner(&right.schema, pairs, &of_left.hi, &area.hi, count),
    };
    let from_left = rows_in_area(
        &left.schema,
        &left.margins,
        left.chunks.as_slice(),
        &of_left,
    )?;
    let from_right = rows_in_area(
        &right.schema,
        &right.margins,
        right.chunks.as_slice(),
        &of_right,
    )?;
    cross_of_rows(from_left, from_right, pairs)
}

/// Two arrays, the pairs of their dimensions, and the schema and the margins of their cross join.
#[derive(Drop)]
struct OfCross<'a> {
    left: &'a ChunkedArray,
    right: &'a ChunkedArray,
    pairs: &'a [Pair],
    schema: &'a Schema,
    margins: &'a Margins,
}

impl Work<ChunkAt, Chunk> for OfCross<'_> {
    ghost accepts = { λ of number. HaveCells of.left.now.schema of.left.now.margins.items of.left.now.chunks
        × HaveCells of.right.now.schema of.right.now.margins.items of.right.now.chunks
        × (of.schema.now ≡ cross_schema of.pairs.now of.left.now.schema of.right.now.schema)
        × IsTrue (pairs_dimensions of.pairs.now of.left.now.schema of.right.now.schema)
        × HasFrame of.schema.now of.margins.now.items number.items };

    ghost gives = { λ of number made. IsPartAt of.schema.now of.margins.now.items
        (cross_rows of.pairs.now (cores_of of.left.now) (cores_of of.right.now)) number made };

    fn size(&self, number: &ChunkAt) -> usize {
        grid_of(self.schema, self.margins, number).volume() as usize
    }

    fn work(&self, number: ChunkAt) -> Result<Chunk, Memory> {
        chunk_of_cross(
            self.left,
            self.right,
            self.pairs,
            self.schema,
            self.margins,
            &number,
        )
    }
}

/// The cross join's chunk of this number.
fn chunk_of_cross(
    left: &ChunkedArray,
    right: &ChunkedArray,
    pairs: &[Pair],
    schema: &Schema,
    margins: &Margins,
    number: &ChunkAt,
) -> Result<Chunk, Memory>
    requires left_cells { HaveCells left.now.schema left.now.margins.items left.now.chunks }
    requires right_cells { HaveCells right.now.schema right.now.margins.items right.now.chunks }
    requires schema { schema.now ≡ cross_schema pairs.now left.now.schema right.now.schema }
    requires pairs { IsTrue (pairs_dimensions pairs.now left.now.schema right.now.schema) }
    requires framed { HasFrame schema.now margins.now.items number.now.items }
    ensures { IfOk result (IsPartAt schema.now margins.now.items (cross_rows pairs.now (cores_of left.now) (cores_of right.now)) number.now) }
{
    let target = frame(schema, margins, number);
    let rows = crossed_in(left, right, pairs, schema, &target)?;
    let made = chunk_of_rows(schema, margins, number, rows)?;
    Ok(made)
}

/// The cross join of two arrays of which none is broken, chunk by chunk.
#[tactic(auto, using(array_geom::proofs::MarginLaws::overlap_each, array_geom::proofs::MarginLaws::overlap_places))]
pub(crate) fn cross_by_pieces(
    left: &ChunkedArray,
    right: &ChunkedArray,
    pairs: &[Pair],
    schema: &Schema,
) -> Result<ChunkedArray, Memory>
    requires left_whole { left.now.broken ≡ None }
    requires right_whole { right.now.broken ≡ None }
    requires left_cells { HaveCells left.now.schema left.now.margins.items left.now.chunks }
    requires right_cells { HaveCells right.now.schema right.now.margins.items right.now.chunks }
    requires schema { schema.now ≡ cross_schema pairs.now left.now.schema right.now.schema }
    requires valid { IsValid schema.now }
    requires pairs { IsTrue (pairs_dimensions pairs.now left.now.schema right.now.schema) }
    ensures array { IfOk result (λ made. Is made (cross_meant schema.now pairs.now (meant_by_cores left.now) (meant_by_cores right.now))) }
    ensures margins { IfOk result (λ made. made.margins.items ≡ overlaps schema.now.dimensions) }
{
    let margins = margins_of(schema);
    let places = right_places(&right.chunks.another(), pairs)?;
    let others = unpaired_numbers(&right.chunks, places.as_slice())?;
    let numbers = crossed_numbers(left.chunks.as_slice(), &others, schema)?;
    let of = OfCross {
        left,
        right,
        pairs,
        schema,
        margins: &margins,
    };
    let parts = in_turn(numbers, &of)?;
    array_of_parts(schema, &margins, parts)
}
