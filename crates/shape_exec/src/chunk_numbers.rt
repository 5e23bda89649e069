//! The numbers of the chunks into which the cells of an array come.
ghost use Rattle.std.specs.Prelude.{◌≡◌, ℕ, ◌<◌, true, List as Items, drop, IsTrue, IfOk, OnOk};
ghost use Rattle.std.specs.List.{AllByRecursion};
ghost use Rattle.cell_values.specs.Schemas.{IsValid};
ghost use Rattle.array_rows.specs.Boxes.{bounds_of, is_inside};
ghost use Rattle.array_rows.specs.Arrays.{AreRowsOf};
ghost use Rattle.array_geom.specs.Geometry.{coordinate_in, frame_lengths, frame_low, volume};
ghost use Rattle.array_geom.specs.Inner.Ranges.{IsGrid};
ghost use Rattle.array_geom.specs.Link.{NumbersRise, chunk_rows};
ghost use Rattle.array_parts.specs.Cores.{HaveCells};
ghost use Rattle.array_parts.specs.Placed.{HasPlaces};
ghost use Rattle.chunk_cells.specs.Inner.Numbers.{numbers_in, starts_with};
ghost use Rattle.shape_exec.specs.Inner.Added.{AddsAt, AddsPlace, HaveReached};

use crate::cell_maps::CellMap;
use array_geom::{Chunk, ChunkedArray, Grid, chunk_of, grid_of};
use cell_values::{ChunkAt, Coord, List, Memory, Schema, compare_numbers};
use exec_box::{in_order, push_core};

/// Whether the number at a place is this one.
fn stands_at(listed: &[ChunkAt], at: usize, number: &ChunkAt) -> bool
    ensures { result ≡ starts_with number.now.items (drop at listed.now) }
{
    match listed.get(at) {
        Some(found) => compare_numbers(found, number).is_eq(),
        None => false,
    }
}

/// Adds the number of the chunk of a place, unless it is the last one.
pub(crate) fn push_number(
    found: &mut List<ChunkAt>,
    schema: &Schema,
    at: &Coord,
) -> Result<(), Memory>
    requires valid { IsValid schema.now }
    requires inside { IsTrue (is_inside (bounds_of schema.now.dimensions) at.now.items) }
    ensures { OnOk result (AddsPlace schema.now.dimensions at.now.items found.old found.new) }
{
    let number = chunk_of(schema, at);
    let last = found.len().saturating_sub(1);
    if stands_at(found.as_slice(), last, &number) {
        return Ok(());
    }
    push_core(found, schema, &number)
}

/// Adds the numbers of the chunks into which cells at places of a grid come.
fn push_places<M: CellMap>(
    found: &mut List<ChunkAt>,
    grid: &Grid,
    positions: &[u64],
    map: &M,
) -> Result<(), Memory>
    requires sound { M.sound map.now }
    requires grid { IsGrid grid.now }
    requires places { AllByRecursion (λ p. p < volume grid.now.lengths.items) positions.now }
    requires inside { AllByRecursion (λ p. is_inside (bounds_of (M.source map.now)) (coordinate_in grid.now.low.items grid.now.lengths.items p) ≡ true) positions.now }
    ensures { OnOk result (AddsAt (M.target map.now) (M.back map.now) grid.now.low.items grid.now.lengths.items positions.now found.old found.new) }
{
    for position in positions {
        map.push_numbers(found, &grid.place(*position))?;
    }
    Ok(())
}

/// Adds the numbers of the chunks into which the cells of one come.
fn push_chunk<M: CellMap>(
    found: &mut List<ChunkAt>,
    array: &ChunkedArray,
    chunk: &Chunk,
    map: &M,
) -> Result<(), Memory>
    requires sound { M.sound map.now }
    requires source { M.source map.now ≡ array.now.schema.dimensions }
    requires placed { HasPlaces array.now.schema array.now.margins.items chunk.now }
    requires cells { AreRowsOf array.now.schema (chunk_rows array.now.schema.dimensions array.now.margins.items chunk.now) }
    ensures { OnOk result (AddsAt (M.target map.now) (M.back map.now) (frame_low array.now.schema.dimensions array.now.margins.items chunk.now.at.items)
        (frame_lengths array.now.schema.dimensions array.now.margins.items) chunk.now.positions found.old found.new) }
{
    let grid = grid_of(&array.schema, &array.margins, &chunk.at);
    push_places(found, &grid, chunk.positions.as_slice(), map)
}

/// The numbers of the chunks into which the cells of an array's chunks come, in any order.
fn reached_by<M: CellMap>(array: &ChunkedArray, map: &M) -> Result<List<ChunkAt>, Memory>
    requires sound { M.sound map.now }
    requires source { M.source map.now ≡ array.now.schema.dimensions }
    requires cells { HaveCells array.now.schema array.now.margins.items array.now.chunks }
    ensures { IfOk result (HaveReached (M.target map.now) (M.back map.now) array.now.schema.dimensions array.now.margins.items array.now.chunks) }
{
    let mut found = array.schema.dimensions.another();
    let chunks = array.chunks.as_slice();
    for k in 0..chunks.len() {
        push_chunk(&mut found, array, &chunks[k], map)?;
    }
    Ok(found)
}

/// The numbers of the chunks into which the cells of an array's chunks come.
pub(crate) fn numbers_reached<M: CellMap>(
    array: &ChunkedArray,
    map: &M,
) -> Result<List<ChunkAt>, Memory>
    requires sound { M.sound map.now }
    requires source { M.source map.now ≡ array.now.schema.dimensions }
    requires cells { HaveCells array.now.schema array.now.margins.items array.now.chunks }
    ensures in_order { IfOk result (λ found. NumbersRise (numbers_in found)) }
    ensures reached { IfOk result (HaveReached (M.target map.now) (M.back map.now) array.now.schema.dimensions array.now.margins.items array.now.chunks) }
{
    let found = reached_by(array, map)?;
    in_order(found)
}
