//! `xgrid`.
ghost use Rattle.std.specs.Prelude.{◌≡◌, ◌+◌, ◌≤◌, ◌<◌, ◌^◌, ◌+ℤ◌, ◌++◌, ◌∷◌, [], None, Some, pos, true, length, IsTrue, OnOk, IfOk};
ghost use Rattle.std.specs.Int.{w64, saturate_signed};
ghost use Rattle.std.specs.List.{AllByRecursion};
ghost use Rattle.cell_values.specs.Schemas.{IsValid};
ghost use Rattle.cell_values.specs.declared.datum.Cell.TheVariants.{Full};
ghost use Rattle.array_rows.specs.Boxes.{bounds_of, by_pairs, is_inside};
ghost use Rattle.array_rows.specs.Rows.{Coordinate, cell_at};
ghost use Rattle.array_geom.specs.Geometry.{overlaps};
ghost use Rattle.array_geom.specs.Link.{Is};
ghost use Rattle.array_parts.specs.Cores.{HasCells, HaveCells, meant_by_cores};
ghost use Rattle.logical_plan.specs.Places.{how_many};
ghost use Rattle.logical_plan.specs.Shapes.{blocks_back, first_place, last_place};
ghost use Rattle.logical_plan.specs.ShapeMeant.{xgrid_meant};
ghost use Rattle.logical_plan.specs.ShapeSchemas.{enlarged, xgrid_schema};
ghost use Rattle.logical_plan.specs.Typing.{enlarges};
ghost use Rattle.shape_rows.specs.Laws.{AllEnlarge};
ghost use Rattle.shape_rows.specs.Pulls.{IsPulled};
ghost use Rattle.shape_exec.specs.Inner.Spread.{AddsRows, block_part, parts_of, place_from, places_from, spread_all, spread_under};

use crate::cell_maps::CellMap;
use crate::chunk_numbers::push_number;
use crate::mapped_arrays::mapped_array;
use crate::row_order::in_order;
use afl_outside::Gate;
use array_geom::ChunkedArray;
use arrayvec::ArrayVec;
use cell_values::{Bounds, Cell, ChunkAt, Coord, Dimension, List, Memory, Row, Schema, copy_coord};
use chunk_workers::Crew;
use std::alloc::Global;
use std::thread::Threads;

/// Places along a dimension, from the first to the last.
#[derive(Clone, Copy, Default)]
pub struct Part {
    pub first: i64,
    pub last: i64,
}

type Parts = ArrayVec<Part, 6>;

/// The first place of the block of a place.
#[tactic(auto, using(crate::proofs::SpreadLaws::far))]
fn first_place(d: &Dimension, size: u64, number: i64) -> i64
    ensures { result ≡ saturate_signed w64 (first_place d.now size number) }
{
    d.lo.saturating_add_unsigned(number.abs_diff(d.lo).saturating_mul(size))
}

/// The last place of the block of a place.
#[tactic(auto, using(crate::proofs::SpreadLaws::farther))]
pub(crate) fn last_place(d: &Dimension, size: u64, number: i64) -> i64
    ensures { result ≡ saturate_signed w64 (last_place d.now size number) }
{
    let before = number.abs_diff(d.lo).saturating_mul(size);
    d.lo.saturating_add_unsigned(before.saturating_add(size.saturating_sub(1)))
}

fn block_part(d: &Dimension, size: u64, number: i64) -> Part
    ensures { result ≡ block_part d.now size number }
{
    Part {
        first: first_place(d, size, number),
        last: last_place(d, size, number),
    }
}

fn push_parts(out: &mut Parts, dims: &[Dimension], sizes: &[u64], at: &[i64])
    requires { length out.old.items + length at.now ≤ 6 }
    ensures { out.new.items ≡ out.old.items ++ parts_of dims.now sizes.now at.now }
{
    match dims {
        [] => {}
        [d, dims @ ..] => match sizes {
            [] => {}
            [size, sizes @ ..] => match at {
                [] => {}
                [number, at @ ..] => {
                    out.push(block_part(d, *size, *number));
                    push_parts(out, dims, sizes, at);
                }
            },
        },
    }
}

/// How many places a part has. No memory holds a cell for each of 2^63 and more.
fn count_of(part: Part) -> Result<u64, Memory>
    ensures value { IfOk result (λ count. count ≡ how_many part.first part.last) }
    ensures few { IfOk result (λ count. count ≤ 2 ^ 63) }
{
    if part.last < part.first {
        return Ok(0);
    }
    match part.last.checked_sub(part.first) {
        Some(last) => Ok(last as u64 + 1),
        None => Err(Memory),
    }
}

/// The place of a part that so many others come before.
fn place_in(part: Part, offset: u64) -> i64
    requires within { offset < how_many part.first part.last }
    requires few { how_many part.first part.last ≤ 2 ^ 63 }
    ensures { result ≡ part.first +ℤ pos offset }
{
    part.first + offset as i64
}

/// Adds a cell at the coordinates that begin so and go on in these parts.
#[cycle(push_spread)]
fn push_spread(rows: &mut List<Row>, at: &Coord, parts: &[Part], cell: &Cell) -> Result<(), Memory>
    requires { length at.now.items + length parts.now ≤ 6 }
    ensures { OnOk result (rows.new ≡ rows.old ++ spread_under cell.now at.now.items parts.now) }
{
    match parts {
        [] => rows.push(Row {
            at: copy_coord(at),
            cell: cell.copy()?,
        }),
        [part, rest @ ..] => push_along(rows, at, *part, rest, cell),
    }
}

/// Adds a cell along a first part, and then in the others.
#[cycle(push_spread)]
fn push_along(
    rows: &mut List<Row>,
    at: &Coord,
    part: Part,
    rest: &[Part],
    cell: &Cell,
) -> Result<(), Memory>
    requires { length at.now.items + length rest.now < 6 }
    ensures { OnOk result (rows.new ≡ rows.old ++ spread_under cell.now at.now.items (part ∷ rest.now)) }
{
    for offset in 0..count_of(part)? {
        let mut next = copy_coord(at);
        next.push(place_in(part, offset));
        push_spread(rows, &next, rest, cell)?;
    }
    Ok(())
}

/// Adds a row's cell at all places of its block.
fn push_block(
    out: &mut List<Row>,
    dims: &[Dimension],
    sizes: &[u64],
    row: &Row,
) -> Result<(), Memory>
    ensures { OnOk result (out.new ≡ out.old ++ spread_under row.now.cell [] (parts_of dims.now sizes.now row.now.at.items)) }
{
    let mut parts = Parts::new();
    push_parts(&mut parts, dims, sizes, row.at.as_slice());
    push_spread(out, &Coord::new(), parts.as_slice(), &row.cell)
}

/// Each row's cell at all places of its block.
fn spread_rows(rows: List<Row>, dims: &[Dimension], sizes: &[u64]) -> Result<List<Row>, Memory>
    ensures { IfOk result (λ made. made ≡ spread_all dims.now sizes.now rows) }
{
    let mut made = rows.another();
    for row in rows.as_slice() {
        push_block(&mut made, dims, sizes, row)?;
    }
    Ok(made)
}

/// Adds the numbers of the chunks of the places of rows.
fn push_row_numbers(found: &mut List<ChunkAt>, schema: &Schema, rows: &[Row]) -> Result<(), Memory>
    requires valid { IsValid schema.now }
    requires inside { AllByRecursion (λ row. is_inside (bounds_of schema.now.dimensions) row.at.items ≡ true) rows.now }
    ensures { OnOk result (AddsRows schema.now.dimensions rows.now found.old found.new) }
{
    for k in 0..rows.len() {
        let row = &rows[k];
        push_number(found, schema, &row.at)?;
    }
    Ok(())
}

/// The place whose block has a place, and the first place for those before the low bound.
fn place_from(d: &Dimension, size: u64, number: i64) -> i64
    requires { 0 < size }
    ensures { result ≡ place_from d.now size number }
{
    if number < d.lo {
        return d.lo;
    }
    d.lo.saturating_add_unsigned(number.abs_diff(d.lo) / size)
}

fn push_places_from(out: &mut Coord, dims: &[Dimension], sizes: &[u64], at: &[i64])
    requires room { length out.old.items + length at.now ≤ 6 }
    requires blocks { AllEnlarge dims.now sizes.now }
    ensures { out.new.items ≡ out.old.items ++ places_from dims.now sizes.now at.now }
{
    match dims {
        [] => {}
        [d, dims @ ..] => match sizes {
            [] => {}
            [size, sizes @ ..] => match at {
                [] => {}
                [number, at @ ..] => {
                    out.push(place_from(d, *size, *number));
                    push_places_from(out, dims, sizes, at);
                }
            },
        },
    }
}

/// Blocks of these sizes at the places of a source, and the schema of the array of blocks.
#[derive(Drop)]
struct Blocks<'a> {
    source: &'a Schema,
    sizes: &'a [u64],
    schema: &'a Schema,
}

/// The rows of the blocks of a source's rows.
fn block_rows(of: &Blocks<'_>, rows: List<Row>) -> Result<List<Row>, Memory>
    requires source { IsValid of.now.source.now }
    requires valid { IsValid of.now.schema.now }
    requires blocks { AllEnlarge of.now.source.now.dimensions of.now.sizes.now }
    requires schema { of.now.schema.now.dimensions ≡ by_pairs enlarged of.now.source.now.dimensions of.now.sizes.now }
    requires inside { AllByRecursion (λ row. is_inside (bounds_of of.now.source.now.dimensions) row.at.items ≡ true) rows }
    ensures { IfOk result (IsPulled (bounds_of of.now.schema.now.dimensions) (blocks_back of.now.source.now.dimensions of.now.sizes.now) rows) }
{
    let spread = spread_rows(rows, of.source.dimensions.as_slice(), of.sizes)?;
    in_order(spread)
}

/// The rows of the block of one place, whatever its cell.
fn rows_of_place(of: &Blocks<'_>, alloc: Global, at: &Coord) -> Result<List<Row>, Memory>
    requires source { IsValid of.now.source.now }
    requires valid { IsValid of.now.schema.now }
    requires blocks { AllEnlarge of.now.source.now.dimensions of.now.sizes.now }
    requires schema { of.now.schema.now.dimensions ≡ by_pairs enlarged of.now.source.now.dimensions of.now.sizes.now }
    requires inside { IsTrue (is_inside (bounds_of of.now.source.now.dimensions) at.now.items) }
    ensures inside { IfOk result (λ rows. AllByRecursion (λ row. is_inside (bounds_of of.now.schema.now.dimensions) row.at.items ≡ true) rows) }
    ensures reached { IfOk result (λ rows. (y : Coordinate) → is_inside (bounds_of of.now.schema.now.dimensions) y ≡ true
        → blocks_back of.now.source.now.dimensions of.now.sizes.now y ≡ at.now.items → cell_at rows y ≡ Some (Full [])) }
{
    let mut one = List::new(alloc);
    one.push(Row {
        at: copy_coord(at),
        cell: Cell::Full(List::new(alloc)),
    })?;
    block_rows(of, one)
}

impl CellMap for Blocks<'_> {
    ghost sound = { λ of. IsValid of.source.now × IsValid of.schema.now × AllEnlarge of.source.now.dimensions of.sizes.now
        × (of.schema.now.dimensions ≡ by_pairs enlarged of.source.now.dimensions of.sizes.now) };

    ghost source = { λ of. of.source.now.dimensions };

    ghost target = { λ of. of.schema.now.dimensions };

    ghost back = { λ of. blocks_back of.source.now.dimensions of.sizes.now };

    fn push_numbers(&self, found: &mut List<ChunkAt>, at: &Coord) -> Result<(), Memory> {
        let rows = rows_of_place(self, found.allocator(), at)?;
        push_row_numbers(found, self.schema, rows.as_slice())
    }

    fn preimage(&self, area: &Bounds) -> Bounds {
        let dims = self.source.dimensions.as_slice();
        let mut lo = Coord::new();
        let mut hi = Coord::new();
        push_places_from(&mut lo, dims, self.sizes, area.lo.as_slice());
        push_places_from(&mut hi, dims, self.sizes, area.hi.as_slice());
        Bounds { lo, hi }
    }

    fn rows_from(&self, rows: List<Row>, area: &Bounds) -> Result<List<Row>, Memory> {
        let _ = area;
        block_rows(self, rows)
    }
}

/// The array of blocks of one that is not broken.
fn of_whole<R: Threads + Sync, G: Gate>(
    crew: &mut Crew<'_, R, G>,
    array: &ChunkedArray,
    sizes: &[u64],
    target: &Schema,
) -> Result<ChunkedArray, Memory>
    requires whole { array.now.broken ≡ None }
    requires cells { HaveCells array.now.schema array.now.margins.items array.now.chunks }
    requires blocks { AllEnlarge array.now.schema.dimensions sizes.now }
    requires target { target.now ≡ xgrid_schema sizes.now array.now.schema }
    requires valid { IsValid target.now }
    ensures array { IfOk result (λ made. Is made (xgrid_meant sizes.now (meant_by_cores array.now))) }
    ensures margins { IfOk result (λ made. made.margins.items ≡ overlaps target.now.dimensions) }
{
    let map = Blocks {
        source: &array.schema,
        sizes,
        schema: target,
    };
    mapped_array(crew, array, target, &map)
}

/// The cells of an array, each at all places of a block of these sizes, one for each dimension. What the array's margins hold
/// doesn't matter.
pub fn xgrid<R: Threads + Sync, G: Gate>(
    crew: &mut Crew<'_, R, G>,
    array: ChunkedArray,
    blocks: &[u64],
    target: &Schema,
) -> Result<ChunkedArray, Memory>
    requires whole { array.broken ≡ None }
    requires cells { HasCells array }
    requires blocks { IsTrue (enlarges array.schema blocks.now) }
    requires target { target.now ≡ xgrid_schema blocks.now array.schema }
    requires valid { IsValid target.now }
    ensures array { IfOk result (λ made. Is made (xgrid_meant blocks.now (meant_by_cores array))) }
    ensures margins { IfOk result (λ made. made.margins.items ≡ overlaps target.now.dimensions) }
{
    of_whole(crew, &array, blocks, target)
}
