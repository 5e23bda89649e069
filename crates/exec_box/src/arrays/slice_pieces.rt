//! Slices of arrays chunk by chunk.
ghost use Rattle.std.specs.Prelude.{◌≡◌, ◌+◌, ◌≤◌, ◌<◌, ◌++◌, ◌∷◌, [], None, if◌then◌else◌, length, IsTrue, OnOk, IfOk};
ghost use Rattle.cell_values.specs.Schemas.{IsValid};
ghost use Rattle.array_rows.specs.Boxes.{corners, within};
ghost use Rattle.array_geom.specs.Geometry.{HasFrame, chunk_of, core, has_core, overlaps};
ghost use Rattle.array_geom.specs.Link.{Is, NumbersRise, numbers};
ghost use Rattle.array_parts.specs.Cores.{HaveCells, cores_of, meant_by_cores};
ghost use Rattle.chunk_cells.specs.Inner.Numbers.{numbers_in};
ghost use Rattle.area_cells.specs.Pieces.{IsPartAt};
ghost use Rattle.logical_plan.specs.BoxOps.{fixed_places, has_fixed, items_but, slice_rows};
ghost use Rattle.logical_plan.specs.PlanSchema.{slice_schema};
ghost use Rattle.exec_box.specs.Parts.{slice_meant};
ghost use Rattle.exec_box.specs.Inner.Reached.{AddsReached, AreReached};
ghost use Rattle.exec_box.specs.Inner.Spread.{fixed_number, spread};

use crate::arrays::numbers::{in_order, push_core};
use crate::arrays::turns::in_turn;
use crate::rows::{is_fixed, slice_of_rows};
use area_cells::{array_of_parts, chunk_of_rows, rows_in_area};
use array_geom::{Chunk, ChunkedArray, frame, grid_of, margins_of};
use cell_values::{Bounds, ChunkAt, Coord, Dimension, List, Margins, Memory, Row, Schema};
use chunk_workers::Work;
use logical_plan::Fixed;

/// The number at which a dimension is fixed.
fn fixed_number(fixed: &[Fixed], place: usize) -> Option<i64>
    ensures { result ≡ fixed_number fixed.now place }
{
    match fixed {
        [] => None,
        [f, fixed @ ..] => {
            if f.dimension as usize == place {
                Some(f.at)
            } else {
                fixed_number(fixed, place)
            }
        }
    }
}

/// Adds the fixed numbers at their places, and the others at the other ones. The first dimension has the place `place`.
fn push_spread(out: &mut Coord, at: &[i64], fixed: &[Fixed], dims: &[Dimension], place: usize)
    requires room { length out.old.items + length dims.now ≤ 6 }
    requires place { place + length dims.now ≤ 6 }
    ensures { out.new.items ≡ out.old.items ++ spread fixed.now place dims.now at.now }
{
    match dims {
        [] => {}
        [_, dims @ ..] => match fixed_number(fixed, place) {
            Some(number) => {
                out.push(number);
                push_spread(out, at, fixed, dims, place + 1);
            }
            None => match at {
                [] => {}
                [number, at @ ..] => {
                    out.push(*number);
                    push_spread(out, at, fixed, dims, place + 1);
                }
            },
        },
    }
}

/// A box of a slice where it lies in the array.
fn spread_box(schema: &Schema, fixed: &[Fixed], area: &Bounds) -> Bounds
    requires { IsValid schema.now }
    ensures { result ≡ corners (spread fixed.now 0 schema.now.dimensions area.now.lo.items) (spread fixed.now 0 schema.now.dimensions area.now.hi.items) }
{
    let dims = schema.dimensions.as_slice();
    let mut lo = Coord::new();
    let mut hi = Coord::new();
    push_spread(&mut lo, area.lo.as_slice(), fixed, dims, 0);
    push_spread(&mut hi, area.hi.as_slice(), fixed, dims, 0);
    Bounds { lo, hi }
}

/// The slice's rows in a box.
fn slice_in(array: &ChunkedArray, fixed: &[Fixed], target: &Bounds) -> Result<List<Row>, Memory>
    requires cells { HaveCells array.now.schema array.now.margins.items array.now.chunks }
    requires low { length target.now.lo.items ≡ length (items_but (fixed_places fixed.now) 0 array.now.schema.dimensions) }
    requires high { length target.now.hi.items ≡ length (items_but (fixed_places fixed.now) 0 array.now.schema.dimensions) }
    ensures { IfOk result (λ rows. rows ≡ within target.now (slice_rows fixed.now (cores_of array.now))) }
{
    let from = spread_box(&array.schema, fixed, target);
    let rows = rows_in_area(
        &array.schema,
        &array.margins,
        array.chunks.as_slice(),
        &from,
    )?;
    slice_of_rows(&rows, fixed)
}

/// An array, the fixed numbers at which it is to be sliced, and the schema and the margins of the slice's chunks.
#[derive(Drop)]
struct OfSlice<'a> {
    array: &'a ChunkedArray,
    fixed: &'a [Fixed],
    schema: &'a Schema,
    margins: &'a Margins,
}

impl Work<ChunkAt, Chunk> for OfSlice<'_> {
    ghost accepts = { λ of number. HaveCells of.array.now.schema of.array.now.margins.items of.array.now.chunks
        × (of.schema.now.dimensions ≡ items_but (fixed_places of.fixed.now) 0 of.array.now.schema.dimensions)
        × HasFrame of.schema.now of.margins.now.items number.items };

    ghost gives = { λ of number made. IsPartAt of.schema.now of.margins.now.items (slice_rows of.fixed.now (cores_of of.array.now)) number made };

    fn size(&self, number: &ChunkAt) -> usize {
        grid_of(self.schema, self.margins, number).volume() as usize
    }

    fn work(&self, number: ChunkAt) -> Result<Chunk, Memory> {
        chunk_of_slice(self.array, self.fixed, self.schema, self.margins, &number)
    }
}

/// The slice's chunk of this number.
fn chunk_of_slice(
    array: &ChunkedArray,
    fixed: &[Fixed],
    schema: &Schema,
    margins: &Margins,
    number: &ChunkAt,
) -> Result<Chunk, Memory>
    requires cells { HaveCells array.now.schema array.now.margins.items array.now.chunks }
    requires schema { schema.now.dimensions ≡ items_but (fixed_places fixed.now) 0 array.now.schema.dimensions }
    requires framed { HasFrame schema.now margins.now.items number.now.items }
    ensures { IfOk result (IsPartAt schema.now margins.now.items (slice_rows fixed.now (cores_of array.now)) number.now) }
{
    let target = frame(schema, margins, number);
    let rows = slice_in(array, fixed, &target)?;
    let made = chunk_of_rows(schema, margins, number, rows)?;
    Ok(made)
}

fn push_unless(out: &mut ChunkAt, is_left_out: bool, number: u64)
    requires { length out.old.items < 6 }
    ensures value { out.new.items ≡ out.old.items ++ (if is_left_out then [] else number ∷ []) }
    ensures room { length out.new.items ≤ length out.old.items + 1 }
{
    if !is_left_out {
        out.push(number);
    }
}

/// Adds a chunk's numbers in the dimensions that are not fixed. The first one has the place `place`.
fn push_others(out: &mut ChunkAt, number: &[u64], fixed: &[Fixed], place: usize)
    requires room { length out.old.items + length number.now ≤ 6 }
    requires place { place + length number.now ≤ 6 }
    ensures { out.new.items ≡ out.old.items ++ items_but (fixed_places fixed.now) place number.now }
{
    match number {
        [] => {}
        [first, number @ ..] => {
            push_unless(out, is_fixed(fixed, place), *first);
            push_others(out, number, fixed, place + 1);
        }
    }
}

/// A chunk's number in the dimensions that are not fixed.
fn number_but(number: &ChunkAt, fixed: &[Fixed]) -> ChunkAt
    ensures { result.items ≡ items_but (fixed_places fixed.now) 0 number.now.items }
{
    let mut others = ChunkAt::new();
    push_others(&mut others, number.as_slice(), fixed, 0);
    others
}

/// Adds the number of the slice's chunk into which a chunk's cells come.
fn push_sliced(
    found: &mut List<ChunkAt>,
    source: &Schema,
    target: &Schema,
    fixed: &[Fixed],
    number: &ChunkAt,
) -> Result<(), Memory>
    requires valid { IsValid source.now }
    requires core { IsTrue (has_core source.now.dimensions number.now.items) }
    ensures { OnOk result (AddsReached target.now.dimensions (has_fixed fixed.now)
        (λ c. items_but (fixed_places fixed.now) 0 (chunk_of source.now.dimensions c)) (core source.now.dimensions number.now.items) found.old found.new) }
{
    let _ = source;
    push_core(found, target, &number_but(number, fixed))
}

/// The numbers of the slice's chunks, in any order.
fn reached_by_slice(
    array: &ChunkedArray,
    fixed: &[Fixed],
    schema: &Schema,
) -> Result<List<ChunkAt>, Memory>
    requires { HaveCells array.now.schema array.now.margins.items array.now.chunks }
    ensures { IfOk result (AreReached array.now.schema.dimensions schema.now.dimensions (has_fixed fixed.now)
        (λ c. items_but (fixed_places fixed.now) 0 (chunk_of array.now.schema.dimensions c)) array.now.chunks) }
{
    let mut found = array.schema.dimensions.another();
    let chunks = array.chunks.as_slice();
    for k in 0..chunks.len() {
        push_sliced(&mut found, &array.schema, schema, fixed, &chunks[k].at)?;
    }
    Ok(found)
}

/// The numbers of the slice's chunks.
fn numbers_of_slice(
    array: &ChunkedArray,
    fixed: &[Fixed],
    schema: &Schema,
) -> Result<List<ChunkAt>, Memory>
    requires { HaveCells array.now.schema array.now.margins.items array.now.chunks }
    ensures in_order { IfOk result (λ found. NumbersRise (numbers_in found)) }
    ensures reached { IfOk result (AreReached array.now.schema.dimensions schema.now.dimensions (has_fixed fixed.now)
        (λ c. items_but (fixed_places fixed.now) 0 (chunk_of array.now.schema.dimensions c)) array.now.chunks) }
{
    let found = reached_by_slice(array, fixed, schema)?;
    in_order(found)
}

/// The slice of an array that is not broken, chunk by chunk.
#[tactic(auto, using(array_geom::proofs::MarginLaws::overlap_each, array_geom::proofs::MarginLaws::overlap_places))]
pub(crate) fn slice_by_pieces(
    schema: &Schema,
    array: &ChunkedArray,
    fixed: &[Fixed],
) -> Result<ChunkedArray, Memory>
    requires whole { array.now.broken ≡ None }
    requires cells { HaveCells array.now.schema array.now.margins.items array.now.chunks }
    requires valid { IsValid schema.now }
    requires schema { schema.now ≡ slice_schema fixed.now array.now.schema }
    ensures array { IfOk result (λ slice. Is slice (slice_meant fixed.now (meant_by_cores array.now))) }
    ensures margins { IfOk result (λ slice. slice.margins.items ≡ overlaps schema.now.dimensions) }
{
    let margins = margins_of(schema);
    let numbers = numbers_of_slice(array, fixed, schema)?;
    let of = OfSlice {
        array,
        fixed,
        schema,
        margins: &margins,
    };
    let parts = in_turn(numbers, &of)?;
    array_of_parts(schema, &margins, parts)
}
