//! The cells of a chunk in a box.
ghost use Rattle.std.specs.Prelude.{◌≡◌, ◌<◌, [], Some, length, slice_index_or, OnOk, IfOk};
ghost use Rattle.cell_values.specs.declared.datum.Cell.TheVariants.{Full};
ghost use Rattle.array_rows.specs.Inner.CellsIn.{cells_in};
ghost use Rattle.array_rows.specs.Boxes.{within};
ghost use Rattle.array_geom.specs.Geometry.{HasFrame, coordinate_in, volume};
ghost use Rattle.array_geom.specs.Inner.Ranges.{IsGrid};
ghost use Rattle.array_parts.specs.Made.{IsPlaced, IsMadeBy, with_cell};
ghost use Rattle.area_cells.specs.Cut.{cell_inside};

use array_geom::{Chunk, Grid, grid_of};
use array_rows::{Form, is_in_box};
use cell_values::{Bounds, Margins, Memory, Schema, copy_numbers};

/// Adds a cell of these.
fn push_cell(made: &mut Chunk, position: u64, form: &Form, k: usize) -> Result<(), Memory>
    requires { k < length (cells_in form.now) }
    ensures { OnOk result (made.new ≡ with_cell made.old position (Some (slice_index_or (cells_in form.now) k (Full [])))) }
{
    made.positions.push(position)?;
    match form {
        Form::Even(rows) => made.cells.push_row(rows, k),
        Form::Mixed(cells) => made.cells.push(cells[k].copy()?),
    }
}

/// Adds a cell of these, which stands at this place of the grid, if the box has it.
fn push_inside(
    made: &mut Chunk,
    grid: &Grid,
    area: &Bounds,
    position: u64,
    form: &Form,
    k: usize,
) -> Result<(), Memory>
    requires place { k < length (cells_in form.now) }
    requires grid { IsGrid grid.now }
    requires inside { position < volume grid.now.lengths.items }
    ensures { OnOk result (made.new ≡ with_cell made.old position
        (cell_inside area.now (coordinate_in grid.now.low.items grid.now.lengths.items position) (slice_index_or (cells_in form.now) k (Full [])))) }
{
    if is_in_box(area, &grid.place(position)) {
        push_cell(made, position, form, k)?;
    }
    Ok(())
}

/// Copies of the cells of a chunk, and of its margins, that lie in a box.
pub fn cut_chunk(
    schema: &Schema,
    margins: &Margins,
    chunk: &Chunk,
    area: &Bounds,
) -> Result<Chunk, Memory>
    requires framed { HasFrame schema.now margins.now.items chunk.now.at.items }
    requires placed { IsPlaced schema.now.dimensions margins.now.items chunk.now }
    ensures { IfOk result (IsMadeBy (within area.now) schema.now.dimensions margins.now.items chunk.now) }
{
    let grid = grid_of(schema, margins, &chunk.at);
    let mut made = Chunk {
        at: copy_numbers(&chunk.at),
        positions: chunk.positions.another(),
        cells: chunk.cells.another(),
    };
    let form = chunk.cells.form();
    let places = chunk.positions.as_slice();
    for k in 0..places.len() {
        push_inside(&mut made, &grid, area, places[k], form, k)?;
    }
    Ok(made)
}
