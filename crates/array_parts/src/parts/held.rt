//! Chunks whose core holds a cell.
ghost use Rattle.std.specs.Prelude.{◌≡◌, ◌<◌, List as Items, length, filter, IfOk};
ghost use Rattle.std.specs.List.{AllByRecursion, list_any};
ghost use Rattle.array_geom.specs.Boxes.{is_inside};
ghost use Rattle.array_geom.specs.Geometry.{coordinate_in, volume};
ghost use Rattle.array_geom.specs.Link.{AreChunksOf};
ghost use Rattle.array_geom.specs.Inner.Ranges.{IsGrid};
ghost use Rattle.array_parts.specs.Parts.{AreParts, holds_cell};
ghost use Rattle.array_parts.specs.Placed.{HasPlaces, HavePlaces};
ghost use Rattle.cell_values.specs.declared.datum.Row.{Row};

use array_geom::{Boxes, Chunk, Grid, core_box, grid_of};
use cell_values::{Bounds, List, Margins, Memory, Schema};

/// Whether a box holds one of these places.
fn holds_one(grid: &Grid, area: &Bounds, positions: &[u64]) -> bool
    requires grid { IsGrid grid.now }
    requires inside { AllByRecursion (λ p. p < volume grid.now.lengths.items) positions.now }
    ensures { result ≡ list_any (λ p. is_inside area.now (coordinate_in grid.now.low.items grid.now.lengths.items p)) positions.now }
{
    for position in positions {
        if area.holds(&grid.place(*position)) {
            return true;
        }
    }
    false
}

/// Whether a chunk's core holds a cell.
pub fn holds_cell(schema: &Schema, margins: &Margins, chunk: &Chunk) -> bool
    requires { HasPlaces schema.now margins.now.items chunk.now }
    ensures { result ≡ holds_cell schema.now.dimensions margins.now.items chunk.now }
{
    let grid = grid_of(schema, margins, &chunk.at);
    let core = core_box(schema, &chunk.at);
    holds_one(&grid, &core, chunk.positions.as_slice())
}

/// The chunks whose core holds a cell.
fn kept_chunks(
    schema: &Schema,
    margins: &Margins,
    chunks: List<Chunk>,
) -> Result<List<Chunk>, Memory>
    requires { HavePlaces schema.now margins.now.items chunks }
    ensures { IfOk result (λ kept. kept ≡ filter (holds_cell schema.now.dimensions margins.now.items) chunks) }
{
    let mut kept = chunks.another();
    for chunk in chunks.into_vec() {
        if holds_cell(schema, margins, &chunk) {
            kept.push(chunk)?;
        }
    }
    Ok(kept)
}

/// The chunks whose core holds a cell, which are those of an array where the chunks are parts.
pub fn with_cells(
    schema: &Schema,
    margins: &Margins,
    chunks: List<Chunk>,
) -> Result<List<Chunk>, Memory>
    requires { HavePlaces schema.now margins.now.items chunks }
    ensures exact { IfOk result (λ kept. kept ≡ filter (holds_cell schema.now.dimensions margins.now.items) chunks) }
    ensures placed { IfOk result (HavePlaces schema.now margins.now.items) }
    ensures chunks { (rows : Items Row) → AreParts schema.now.dimensions margins.now.items rows chunks
        → IfOk result (AreChunksOf schema.now.dimensions margins.now.items rows) }
{
    kept_chunks(schema, margins, chunks)
}
