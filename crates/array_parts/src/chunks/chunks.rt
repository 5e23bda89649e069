//! The cells of a chunk, changed one after the other.
ghost use Rattle.std.specs.Prelude.{◌≡◌, ◌<◌, [], List as Items, Some, length, slice_index_or, IsTrue, OnOk, IfOk};
ghost use Rattle.std.specs.List.{AllByRecursion};
ghost use Rattle.cell_values.specs.declared.datum.Cell.TheVariants.{Full};
ghost use Rattle.cell_values.specs.declared.datum.Row.{Row};
ghost use Rattle.array_geom.specs.CellsIn.{cells_in};
ghost use Rattle.array_geom.specs.Cellwise.{cell_wise};
ghost use Rattle.array_geom.specs.Geometry.{HasFrame, coordinate_in, volume};
ghost use Rattle.array_geom.specs.Link.{IsPart};
ghost use Rattle.array_geom.specs.Inner.Ranges.{IsGrid};
ghost use Rattle.array_parts.specs.Made.{IsPlaced, IsMadeBy, with_cell};
ghost use Rattle.array_parts.specs.Inner.Quickly.{StaysAnywhere};

use crate::chunks::{CellChange, Quick};
use array_geom::{Chunk, Form, Grid, Rows, grid_of};
use cell_values::{Cell, Coord, Margins, Memory, Schema};

/// Adds what becomes of a cell.
fn push_changed<C: CellChange>(
    made: &mut Chunk,
    position: u64,
    at: &Coord,
    cell: Cell,
    change: &C,
) -> Result<(), Memory>
    ensures { OnOk result (made.new ≡ with_cell made.old position (C.changed change.now at.now.items cell)) }
{
    if let Some(cell) = change.change(at, cell)? {
        made.positions.push(position)?;
        made.cells.push(cell)?;
    }
    Ok(())
}

/// Adds a cell of some rows.
fn push_same(made: &mut Chunk, position: u64, rows: &Rows, k: usize) -> Result<(), Memory>
    requires { k < length rows.now }
    ensures { OnOk result (made.new ≡ with_cell made.old position (Some (Full (slice_index_or rows.now k [])))) }
{
    made.positions.push(position)?;
    made.cells.push_row(rows, k)
}

/// Adds what becomes of a cell, which stands at this place of the grid.
fn push_slowly<C: CellChange>(
    made: &mut Chunk,
    grid: &Grid,
    position: u64,
    cell: Cell,
    change: &C,
) -> Result<(), Memory>
    requires grid { IsGrid grid.now }
    requires inside { position < volume grid.now.lengths.items }
    ensures { OnOk result (made.new ≡ with_cell made.old position
        (C.changed change.now (coordinate_in grid.now.low.items grid.now.lengths.items position) cell)) }
{
    let at = grid.place(position);
    push_changed(made, position, &at, cell, change)
}

fn push_row_changed<C: CellChange>(
    made: &mut Chunk,
    grid: &Grid,
    position: u64,
    rows: &Rows,
    k: usize,
    change: &C,
) -> Result<(), Memory>
    requires place { k < length rows.now }
    requires grid { IsGrid grid.now }
    requires inside { position < volume grid.now.lengths.items }
    ensures { OnOk result (made.new ≡ with_cell made.old position
        (C.changed change.now (coordinate_in grid.now.low.items grid.now.lengths.items position) (Full (slice_index_or rows.now k [])))) }
{
    match change.quick(rows, k) {
        Quick::Stays => push_same(made, position, rows, k),
        Quick::Goes => Ok(()),
        Quick::Unknown => push_slowly(made, grid, position, Cell::Full(rows.row(k)?), change),
    }
}

/// Adds what becomes of the cell at a place, which stands at this place of the grid.
fn push_next<C: CellChange>(
    made: &mut Chunk,
    grid: &Grid,
    position: u64,
    form: &Form,
    k: usize,
    change: &C,
) -> Result<(), Memory>
    requires place { k < length (cells_in form.now) }
    requires grid { IsGrid grid.now }
    requires inside { position < volume grid.now.lengths.items }
    ensures { OnOk result (made.new ≡ with_cell made.old position
        (C.changed change.now (coordinate_in grid.now.low.items grid.now.lengths.items position) (slice_index_or (cells_in form.now) k (Full [])))) }
{
    match form {
        Form::Even(rows) => push_row_changed(made, grid, position, rows, k, change),
        Form::Mixed(cells) => push_slowly(made, grid, position, cells[k].copy()?, change),
    }
}

/// The chunk with one cell after the other changed.
fn change_each<C: CellChange>(
    schema: &Schema,
    margins: &Margins,
    chunk: Chunk,
    change: &C,
) -> Result<Chunk, Memory>
    requires framed { HasFrame schema.now margins.now.items chunk.at.items }
    requires placed { IsPlaced schema.now.dimensions margins.now.items chunk }
    ensures made { IfOk result (IsMadeBy (cell_wise (C.changed change.now)) schema.now.dimensions margins.now.items chunk) }
    ensures part { (rows : Items Row) → IsPart schema.now.dimensions margins.now.items rows chunk
        → IfOk result (IsPart schema.now.dimensions margins.now.items (cell_wise (C.changed change.now) rows)) }
{
    let grid = grid_of(schema, margins, &chunk.at);
    let Chunk {
        at,
        positions,
        cells,
    } = chunk;
    let mut made = Chunk {
        at,
        positions: positions.another(),
        cells: cells.another(),
    };
    let form = cells.form();
    let places = positions.as_slice();
    for k in 0..places.len() {
        push_next(&mut made, &grid, places[k], form, k, change)?;
    }
    Ok(made)
}

/// Whether a cell is known to stay as it is.
fn stays<C: CellChange>(rows: &Rows, k: usize, change: &C) -> bool
    requires { k < length rows.now }
    ensures { IsTrue result → StaysAnywhere (C.changed change.now) (Full (slice_index_or rows.now k [])) }
{
    match change.quick(rows, k) {
        Quick::Stays => true,
        Quick::Goes => false,
        Quick::Unknown => false,
    }
}

fn all_rows_stay<C: CellChange>(rows: &Rows, change: &C) -> bool
    ensures { IsTrue result → AllByRecursion (λ row. StaysAnywhere (C.changed change.now) (Full row)) rows.now }
{
    for k in 0..rows.len() {
        if !stays(rows, k, change) {
            return false;
        }
    }
    true
}

/// Whether all cells are known to stay as they are.
fn all_stay<C: CellChange>(form: &Form, change: &C) -> bool
    ensures { IsTrue result → AllByRecursion (StaysAnywhere (C.changed change.now)) (cells_in form.now) }
{
    match form {
        Form::Even(rows) => all_rows_stay(rows, change),
        Form::Mixed(_) => false,
    }
}

/// The chunk with each cell changed, those of its margins too. Where all are known to stay, none is moved.
pub fn change_chunk<C: CellChange>(
    schema: &Schema,
    margins: &Margins,
    chunk: Chunk,
    change: &C,
) -> Result<Chunk, Memory>
    requires framed { HasFrame schema.now margins.now.items chunk.at.items }
    requires placed { IsPlaced schema.now.dimensions margins.now.items chunk }
    ensures made { IfOk result (IsMadeBy (cell_wise (C.changed change.now)) schema.now.dimensions margins.now.items chunk) }
    ensures part { (rows : Items Row) → IsPart schema.now.dimensions margins.now.items rows chunk →
        IfOk result (IsPart schema.now.dimensions margins.now.items (cell_wise (C.changed change.now) rows)) }
{
    if all_stay(chunk.cells.form(), change) {
        Ok(chunk)
    } else {
        change_each(schema, margins, chunk, change)
    }
}
