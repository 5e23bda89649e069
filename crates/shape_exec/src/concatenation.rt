//! `concat`.
ghost use Rattle.std.specs.Prelude.{◌≡◌, ◌+◌, ◌≤◌, ◌++◌, ◌+ℤ◌, ◌-ℤ◌, pos, true, None, length, map, IsTrue, IfOk};
ghost use Rattle.std.specs.List.{AllByRecursion};
ghost use Rattle.cell_values.specs.Schemas.{IsValid};
ghost use Rattle.array_rows.specs.Boxes.{moved, within};
ghost use Rattle.array_geom.specs.Geometry.{HasFrame, chunk_of, overlaps};
ghost use Rattle.array_geom.specs.Inner.Ranges.{AreNear, IsNear};
ghost use Rattle.array_geom.specs.Link.{Is, is_listed};
ghost use Rattle.array_parts.specs.Cores.{HasCells, HaveCells, cores_of, meant_by_cores};
ghost use Rattle.area_cells.specs.Pieces.{IsPartAt};
ghost use Rattle.chunk_cells.specs.Inner.Numbers.{numbers_in};
ghost use Rattle.exec_box.specs.Inner.Reached.{HaveCores};
ghost use Rattle.logical_plan.specs.Shapes.{along, concat_rows, step_between};
ghost use Rattle.logical_plan.specs.ShapeMeant.{concat_meant};
ghost use Rattle.logical_plan.specs.ShapeSchemas.{concat_schema};
ghost use Rattle.logical_plan.specs.Typing.{concatenates};
ghost use Rattle.shape_exec.specs.Inner.Added.{CanConcat, back_along, forth_along, step_of, turned_back};

use crate::chunk_numbers::numbers_reached;
use crate::coord_maps::{ByCoords, CoordMap, map_rows};
use crate::pair_numbers::{numbers_of_both, numbers_of_side};
use crate::row_order::keep_inside;
use afl_outside::Gate;
use area_cells::{array_of_parts, chunk_of_rows, rows_in_area};
use array_geom::{Chunk, ChunkedArray, frame, grid_of, margins_of};
use cell_values::{Bounds, ChunkAt, Coord, Dimension, List, Margins, Memory, Row, Schema};
use chunk_workers::{Crew, Work, over_pieces};
use std::thread::Threads;

fn push_each(out: &mut Coord, numbers: &[i64])
    requires { length out.old.items + length numbers.now ≤ 6 }
    ensures { out.new.items ≡ out.old.items ++ numbers.now }
{
    for number in numbers {
        out.push(*number);
    }
}

/// How far a first place is from the one behind a last one.
fn steps_to(last: &Dimension, first: &Dimension) -> i64
    requires last { IsNear last.now }
    requires first { IsNear first.now }
    ensures { result ≡ ((last.now.hi +ℤ pos 1) -ℤ first.now.lo) }
{
    last.hi + 1 - first.lo
}

/// How far the right's cells are moved.
fn step_along(left: &[Dimension], right: &[Dimension]) -> i64
    requires left { AreNear left.now }
    requires right { AreNear right.now }
    ensures { result ≡ step_between left.now right.now }
{
    match left {
        [] => 0,
        [l, ..] => match right {
            [] => 0,
            [r, ..] => steps_to(l, r),
        },
    }
}

/// How far the cells of a right array are moved.
#[tactic(auto, using(array_geom::proofs::NearLemmas::near_slice))]
fn step_to(left: &Schema, right: &Schema) -> i64
    requires left { IsValid left.now }
    requires right { IsValid right.now }
    ensures { result ≡ step_between left.now.dimensions right.now.dimensions }
{
    let first = left.dimensions.as_slice();
    let second = right.dimensions.as_slice();
    step_along(first, second)
}

/// A coordinate moved from a right array behind a left one, as far as 64 bits go.
fn forth(at: &Coord, left: &Schema, right: &Schema) -> Coord
    requires left { IsValid left.now }
    requires right { IsValid right.now }
    ensures { result.items ≡ forth_along (step_of left.now right.now) at.now.items }
{
    let mut moved = Coord::new();
    match at.as_slice() {
        [] => {}
        [number, rest @ ..] => {
            moved.push(number.saturating_add(step_to(left, right)));
            push_each(&mut moved, rest);
        }
    }
    moved
}

/// A coordinate moved back so, as far as 64 bits go.
fn back(at: &Coord, left: &Schema, right: &Schema) -> Coord
    requires left { IsValid left.now }
    requires right { IsValid right.now }
    ensures { result.items ≡ back_along (step_of left.now right.now) at.now.items }
{
    let mut moved = Coord::new();
    match at.as_slice() {
        [] => {}
        [number, rest @ ..] => {
            moved.push(number.saturating_sub(step_to(left, right)));
            push_each(&mut moved, rest);
        }
    }
    moved
}

/// The cells of the right array, moved behind those of the left one.
#[derive(Drop)]
struct Shift<'a> {
    left: &'a Schema,
    right: &'a Schema,
    target: &'a Schema,
}

impl CoordMap for Shift<'_> {
    ghost able = { λ by. CanConcat (step_of by.left.now by.right.now) by.left.now by.right.now by.target.now };

    ghost domain = { λ by. by.right.now.dimensions };

    ghost forth = { λ by. along (step_of by.left.now by.right.now) };

    ghost back = { λ by. turned_back (step_of by.left.now by.right.now) };

    ghost range = { λ by. by.target.now.dimensions };

    fn image(&self, at: &Coord) -> Coord {
        forth(at, self.left, self.right)
    }

    fn preimage(&self, area: &Bounds) -> Bounds {
        Bounds {
            lo: back(&area.lo, self.left, self.right),
            hi: back(&area.hi, self.left, self.right),
        }
    }
}

/// A source's rows in a box.
fn rows_of_side(array: &ChunkedArray, area: &Bounds) -> Result<List<Row>, Memory>
    requires cells { HaveCells array.now.schema array.now.margins.items array.now.chunks }
    ensures { IfOk result (λ rows. rows ≡ within area.now (cores_of array.now)) }
{
    rows_in_area(&array.schema, &array.margins, array.chunks.as_slice(), area)
}

/// The right's rows that come into a box.
fn rows_of_shift(right: &ChunkedArray, by: &Shift<'_>, area: &Bounds) -> Result<List<Row>, Memory>
    requires cells { HaveCells right.now.schema right.now.margins.items right.now.chunks }
    requires able { CanConcat (step_of by.now.left.now by.now.right.now) by.now.left.now by.now.right.now by.now.target.now }
    requires right { by.now.right.now ≡ right.now.schema }
    ensures { IfOk result (λ rows. rows ≡ within area.now (map (moved (along (step_of by.now.left.now by.now.right.now))) (cores_of right.now))) }
{
    let near = by.preimage(area);
    let from = rows_of_side(right, &near)?;
    let moved = map_rows(from, by)?;
    keep_inside(moved, area)
}

/// Two arrays of which the right one is to follow.
#[derive(Drop)]
struct OfBoth<'a> {
    left: &'a ChunkedArray,
    right: &'a ChunkedArray,
    schema: &'a Schema,
    margins: &'a Margins,
}

/// The rows of both in a box, the left's before the right's.
fn rows_of_both(
    left: &ChunkedArray,
    right: &ChunkedArray,
    schema: &Schema,
    area: &Bounds,
) -> Result<List<Row>, Memory>
    requires left { HaveCells left.now.schema left.now.margins.items left.now.chunks }
    requires right { HaveCells right.now.schema right.now.margins.items right.now.chunks }
    requires able { CanConcat (step_of left.now.schema right.now.schema) left.now.schema right.now.schema schema.now }
    ensures { IfOk result (λ rows. rows ≡ within area.now (concat_rows (step_of left.now.schema right.now.schema) (cores_of left.now) (cores_of right.now))) }
{
    let by = Shift {
        left: &left.schema,
        right: &right.schema,
        target: schema,
    };
    let mut rows = rows_of_side(left, area)?;
    rows.append(rows_of_shift(right, &by, area)?)?;
    Ok(rows)
}

/// The chunk of this number: the left's cells, and behind them the right's.
fn chunk_of_both(
    left: &ChunkedArray,
    right: &ChunkedArray,
    schema: &Schema,
    margins: &Margins,
    number: &ChunkAt,
) -> Result<Chunk, Memory>
    requires left { HaveCells left.now.schema left.now.margins.items left.now.chunks }
    requires right { HaveCells right.now.schema right.now.margins.items right.now.chunks }
    requires able { CanConcat (step_of left.now.schema right.now.schema) left.now.schema right.now.schema schema.now }
    requires framed { HasFrame schema.now margins.now.items number.now.items }
    ensures { IfOk result (IsPartAt schema.now margins.now.items (concat_rows (step_of left.now.schema right.now.schema) (cores_of left.now) (cores_of right.now)) number.now) }
{
    let area = frame(schema, margins, number);
    let rows = rows_of_both(left, right, schema, &area)?;
    let made = chunk_of_rows(schema, margins, number, rows)?;
    Ok(made)
}

impl Work<ChunkAt, Chunk> for OfBoth<'_> {
    ghost accepts = { λ of number. HaveCells of.left.now.schema of.left.now.margins.items of.left.now.chunks
        × HaveCells of.right.now.schema of.right.now.margins.items of.right.now.chunks
        × CanConcat (step_of of.left.now.schema of.right.now.schema) of.left.now.schema of.right.now.schema of.schema.now × HasFrame of.schema.now of.margins.now.items number.items };

    ghost gives = { λ of number made. IsPartAt of.schema.now of.margins.now.items (concat_rows (step_of of.left.now.schema of.right.now.schema) (cores_of of.left.now) (cores_of of.right.now)) number made };

    fn size(&self, number: &ChunkAt) -> usize {
        grid_of(self.schema, self.margins, number).volume() as usize
    }

    fn work(&self, number: ChunkAt) -> Result<Chunk, Memory> {
        chunk_of_both(self.left, self.right, self.schema, self.margins, &number)
    }
}

/// The numbers of the chunks into which the right's cells come.
fn numbers_of_shift(
    left: &Schema,
    right: &ChunkedArray,
    schema: &Schema,
) -> Result<List<ChunkAt>, Memory>
    requires cells { HaveCells right.now.schema right.now.margins.items right.now.chunks }
    requires able { CanConcat (step_of left.now right.now.schema) left.now right.now.schema schema.now }
    ensures cores { IfOk result (HaveCores schema.now.dimensions) }
    ensures listed { IfOk result (λ found. AllByRecursion (λ row. is_listed (chunk_of schema.now.dimensions (along (step_of left.now right.now.schema) row.at.items)) (numbers_in found) ≡ true) (cores_of right.now)) }
{
    let by = Shift {
        left,
        right: &right.schema,
        target: schema,
    };
    numbers_reached(right, &ByCoords { by: &by, schema })
}

/// Two arrays that are not broken, one behind the other.
#[tactic(auto, using(array_geom::proofs::MarginLaws::overlap_each, array_geom::proofs::MarginLaws::overlap_places))]
fn of_whole<R: Threads + Sync, G: Gate>(
    crew: &mut Crew<'_, R, G>,
    left: &ChunkedArray,
    right: &ChunkedArray,
    schema: &Schema,
) -> Result<ChunkedArray, Memory>
    requires left_whole { left.now.broken ≡ None }
    requires right_whole { right.now.broken ≡ None }
    requires left { HaveCells left.now.schema left.now.margins.items left.now.chunks }
    requires right { HaveCells right.now.schema right.now.margins.items right.now.chunks }
    requires typed { IsTrue (concatenates left.now.schema right.now.schema) }
    requires schema { schema.now ≡ concat_schema left.now.schema right.now.schema }
    requires valid { IsValid schema.now }
    ensures array { IfOk result (λ made. Is made (concat_meant (meant_by_cores left.now) (meant_by_cores right.now))) }
    ensures margins { IfOk result (λ made. made.margins.items ≡ overlaps schema.now.dimensions) }
{
    let margins = margins_of(schema);
    let of_left = numbers_of_side(left, schema)?;
    let of_right = numbers_of_shift(&left.schema, right, schema)?;
    let numbers = numbers_of_both(of_left, of_right)?;
    let of = OfBoth {
        left,
        right,
        schema,
        margins: &margins,
    };
    let parts = over_pieces(crew, numbers, &of)?;
    array_of_parts(schema, &margins, parts)
}

/// The left's cells, and behind them the right's, moved along the first dimension.
/// What the margins of the two hold doesn't matter.
pub fn concat<R: Threads + Sync, G: Gate>(
    crew: &mut Crew<'_, R, G>,
    left: ChunkedArray,
    right: ChunkedArray,
    target: &Schema,
) -> Result<ChunkedArray, Memory>
    requires left_whole { left.broken ≡ None }
    requires right_whole { right.broken ≡ None }
    requires left_cells { HasCells left }
    requires right_cells { HasCells right }
    requires typed { IsTrue (concatenates left.schema right.schema) }
    requires target { target.now ≡ concat_schema left.schema right.schema }
    requires valid { IsValid target.now }
    ensures array { IfOk result (λ made. Is made (concat_meant (meant_by_cores left) (meant_by_cores right))) }
    ensures margins { IfOk result (λ made. made.margins.items ≡ overlaps target.now.dimensions) }
{
    of_whole(crew, &left, &right, target)
}
