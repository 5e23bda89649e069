//! The cells of a chunk's core.
ghost use Rattle.std.specs.Prelude.{◌≡◌, ◌<◌, ◌++◌, [], ◌∷◌, drop, OnOk, IfOk};
ghost use Rattle.std.specs.List.{AllByRecursion};
ghost use Rattle.std.specs.Vec.Iter.{into_iter_items};
ghost use Rattle.array_rows.specs.Boxes.{within};
ghost use Rattle.array_geom.specs.Geometry.{HasFrame, core, frame_lengths, volume};
ghost use Rattle.array_geom.specs.Link.{chunk_rows, rows_in};
ghost use Rattle.array_geom.specs.Inner.Ranges.{IsGrid};

use array_geom::{Chunk, Grid, core_box, grid_of};
use array_rows::is_in_box;
use cell_values::{Bounds, Cell, List, Margins, Memory, Row, Schema};
use std::vec::IntoIter;

/// Adds the next cell, which stands at this place, if the core has the place.
fn push_core(
    rows: &mut List<Row>,
    grid: &Grid,
    core: &Bounds,
    position: u64,
    cells: &mut IntoIter<Cell>,
) -> Result<(), Memory>
    requires grid { IsGrid grid.now }
    requires inside { position < volume grid.now.lengths.items }
    ensures rows { OnOk result (rows.new ≡ rows.old ++ within core.now
        (rows_in grid.now.low.items grid.now.lengths.items (position ∷ []) (into_iter_items cells.old))) }
    ensures left { into_iter_items cells.new ≡ drop 1 (into_iter_items cells.old) }
{
    if let Some(cell) = cells.next() {
        let at = grid.place(position);
        if is_in_box(core, &at) {
            rows.push(Row { at, cell })?;
        }
    }
    Ok(())
}

/// The rows of a chunk's core, without those of its margins.
pub(crate) fn core_cells(
    schema: &Schema,
    margins: &Margins,
    chunk: Chunk,
) -> Result<List<Row>, Memory>
    requires framed { HasFrame schema.now margins.now.items chunk.at.items }
    requires in_frame { AllByRecursion (λ p. p < volume (frame_lengths schema.now.dimensions margins.now.items)) chunk.positions }
    ensures { IfOk result (λ rows. rows ≡ within (core schema.now.dimensions chunk.at.items) (chunk_rows schema.now.dimensions margins.now.items chunk)) }
{
    let grid = grid_of(schema, margins, &chunk.at);
    let core = core_box(schema, &chunk.at);
    let Chunk {
        at: _,
        positions,
        cells,
    } = chunk;
    let mut rows = positions.another();
    let mut cells = cells.into_list()?.into_vec().into_iter();
    for position in positions.as_slice() {
        push_core(&mut rows, &grid, &core, *position, &mut cells)?;
    }
    Ok(rows)
}
