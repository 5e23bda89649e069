//! The chunks of a `build`.
ghost use Rattle.std.specs.Prelude.{◌≡◌, ◌≤◌, ◌^◌, length, map, IsTrue, IfOk, OnOk};
ghost use Rattle.std.specs.List.{AllByRecursion};
ghost use Rattle.cell_values.specs.Schemas.{IsValid};
ghost use Rattle.array_rows.specs.Arrays.{AreRowsOf};
ghost use Rattle.array_rows.specs.Boxes.{bounds_of};
ghost use Rattle.array_geom.specs.Geometry.{HasFrame, chunk_of, frame_lengths, has_core, volume};
ghost use Rattle.array_geom.specs.Link.{AreChunksOf, Is, IsPart, numbers};
ghost use Rattle.chunk_cells.specs.Frames.{AreFramed, HasFrames};
ghost use Rattle.chunk_cells.specs.Inner.Numbers.{AreCoresOf, numbers_in};
ghost use Rattle.logical_plan.specs.Meaning.{built_rows, whole};
ghost use Rattle.exec_cellwise.specs.Inner.Walks.{numbers_to};

use crate::build::chunks::cells::add_cells;
use crate::build::chunks::numbers::push_numbers;
use array_geom::{Boxes, Chunk, ChunkedArray, chunk_of, frame, grid_of};
use array_rows::Cells;
use cell_values::{Bounds, ChunkAt, Coord, Dimension, List, Margins, Memory, Schema, copy_numbers};
use expr_nulls::TypedExpr;
use std::alloc::Global;

fn bounds_within(dims: &[Dimension]) -> Bounds
    requires { length dims.now ≤ 6 }
    ensures { result ≡ bounds_of dims.now }
{
    let mut lo = Coord::new();
    let mut hi = Coord::new();
    for d in dims {
        lo.push(d.lo);
        hi.push(d.hi);
    }
    Bounds { lo, hi }
}

/// All places of an array.
#[tactic(auto, using(array_geom::proofs::MarginLaws::few_dimensions))]
fn bounds(schema: &Schema) -> Bounds
    requires { IsValid schema.now }
    ensures { result ≡ bounds_of schema.now.dimensions }
{
    bounds_within(schema.dimensions.as_slice())
}

/// The numbers of all chunks.
fn all_numbers(alloc: Global, schema: &Schema, bounds: &Bounds) -> Result<List<ChunkAt>, Memory>
    requires valid { IsValid schema.now }
    requires bounds { bounds.now ≡ bounds_of schema.now.dimensions }
    ensures { IfOk result (λ listed. numbers_in listed ≡ numbers_to (chunk_of schema.now.dimensions (map (λ d. d.hi) schema.now.dimensions))) }
{
    let last = chunk_of(schema, &bounds.hi);
    let mut listed = List::new(alloc);
    push_numbers(&mut listed, &ChunkAt::new(), last.as_slice())?;
    Ok(listed)
}

/// The chunk with a number.
fn chunk_at(
    alloc: Global,
    schema: &Schema,
    margins: &Margins,
    value: &TypedExpr,
    bounds: &Bounds,
    number: &ChunkAt,
) -> Result<Chunk, Memory>
    requires framed { HasFrame schema.now margins.now.items number.now.items }
    requires bounds { bounds.now ≡ bounds_of schema.now.dimensions }
    ensures number { IfOk result (λ chunk. chunk.at ≡ number.now) }
    ensures part { IfOk result (λ chunk. IsPart schema.now.dimensions margins.now.items (built_rows schema.now value.now) chunk) }
{
    let grid = grid_of(schema, margins, number);
    let area = frame(schema, margins, number).meet(bounds);
    let attributes = schema.attributes.as_slice();
    let mut chunk = Chunk {
        at: copy_numbers(number),
        positions: List::new(alloc),
        cells: Cells::new(alloc),
    };
    add_cells(
        alloc,
        attributes,
        value,
        &grid,
        &Coord::new(),
        area.lo.as_slice(),
        area.hi.as_slice(),
        &mut chunk,
    )?;
    Ok(chunk)
}

fn chunks_at(
    alloc: Global,
    schema: &Schema,
    margins: &Margins,
    value: &TypedExpr,
    bounds: &Bounds,
    listed: &[ChunkAt],
) -> Result<List<Chunk>, Memory>
    requires frames { HasFrames schema.now margins.now.items }
    requires framed { AreFramed schema.now.dimensions (numbers_in listed.now) }
    requires bounds { bounds.now ≡ bounds_of schema.now.dimensions }
    ensures same { IfOk result (λ chunks. numbers chunks ≡ numbers_in listed.now) }
    ensures parts { IfOk result (λ chunks. AllByRecursion (IsPart schema.now.dimensions margins.now.items (built_rows schema.now value.now)) chunks) }
{
    let mut chunks = List::with_capacity(alloc, listed.len())?;
    for number in listed {
        chunks.push(chunk_at(alloc, schema, margins, value, bounds, number)?)?;
    }
    Ok(chunks)
}

fn chunks_of(
    alloc: Global,
    schema: &Schema,
    margins: &Margins,
    value: &TypedExpr,
) -> Result<List<Chunk>, Memory>
    requires frames { HasFrames schema.now margins.now.items }
    requires rows { AreRowsOf schema.now (built_rows schema.now value.now) }
    ensures { IfOk result (λ chunks. AreChunksOf schema.now.dimensions margins.now.items (built_rows schema.now value.now) chunks) }
{
    let bounds = bounds(schema);
    let listed = all_numbers(alloc, schema, &bounds)?;
    chunks_at(alloc, schema, margins, value, &bounds, listed.as_slice())
}

/// The array of an expression's values, in chunks with these margins.
pub fn built_array(
    alloc: Global,
    schema: &Schema,
    margins: &Margins,
    value: &TypedExpr,
) -> Result<ChunkedArray, Memory>
    requires rows { AreRowsOf schema.now (built_rows schema.now value.now) }
    requires margins { length margins.now.items ≡ length schema.now.dimensions }
    requires places { volume (frame_lengths schema.now.dimensions margins.now.items) ≤ 2 ^ 48 }
    ensures array { IfOk result (λ array. Is array (whole schema.now (built_rows schema.now value.now))) }
    ensures margins { IfOk result (λ array. array.margins ≡ margins.now) }
{
    Ok(ChunkedArray {
        schema: schema.copy()?,
        margins: copy_numbers(margins),
        chunks: chunks_of(alloc, schema, margins, value)?,
        broken: None,
    })
}
