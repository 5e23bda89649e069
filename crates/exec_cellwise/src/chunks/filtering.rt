//! The cells where an expression is true.
ghost use Rattle.std.specs.Prelude.{◌≡◌, ◌<◌, [], Some as Present, List as Items, length, map, slice_index_or, OnOk, IfOk, IfSome};
ghost use Rattle.cell_values.specs.declared.datum.Cell.TheVariants.{Full};
ghost use Rattle.cell_values.specs.declared.datum.Row.{Row};
ghost use Rattle.array_geom.specs.Geometry.{HasFrame};
ghost use Rattle.array_geom.specs.Link.{IsPart};
ghost use Rattle.logical_plan.specs.CellOps.{kept, filter_cell, filter_rows};
ghost use Rattle.array_parts.specs.Made.{IsPlaced, IsMadeBy, with_cell};

use crate::chunks::places::move_to;
use crate::columns::{names_dimension, walk, walk_at};
use array_geom::{Chunk, grid_of};
use array_parts::{CellChange, Quick, change_chunk};
use array_rows::{Form, Rows, Small};
use cell_values::{Cell, Coord, Datum, List, Margins, Memory, Schema, copy_numbers};
use expr_nulls::{TypedExpr, eval};

/// A filter with its test.
#[derive(Drop)]
struct Filter<'a> {
    test: &'a TypedExpr,
}

/// What a test with this value makes of a cell.
fn keep(test: &Datum, values: List<Datum>) -> Option<Cell>
    ensures { result ≡ kept test.now values }
{
    match test {
        Datum::Truth(true) => Some(Cell::Full(values)),
        Datum::Bad(kind) => Some(Cell::Doubt(*kind)),
        _ => None,
    }
}

impl CellChange for Filter<'_> {
    ghost changed = { λ filter. filter_cell filter.test.now };

    fn change(&self, at: &Coord, cell: Cell) -> Result<Option<Cell>, Memory> {
        match cell {
            Cell::Full(values) => {
                let test = eval(values.allocator(), self.test, at, values.as_slice())?;
                Ok(keep(&test, values))
            }
            Cell::Doubt(kind) => Ok(Some(Cell::Doubt(kind))),
        }
    }

    fn quick(&self, rows: &Rows, k: usize) -> Quick {
        match walk(self.test, rows, k) {
            Small::Truth(true) => Quick::Stays,
            Small::Truth(false) => Quick::Goes,
            _ => Quick::Unknown,
        }
    }
}

/// Adds a row as a cell.
fn push_same(made: &mut Chunk, position: u64, rows: &Rows, k: usize) -> Result<(), Memory>
    requires { k < length rows.now }
    ensures { OnOk result (made.new ≡ with_cell made.old position (Present (Full (slice_index_or rows.now k [])))) }
{
    made.positions.push(position)?;
    made.cells.push_row(rows, k)
}

/// Adds what the value of a test makes of a cell with these values.
fn push_tested(
    made: &mut Chunk,
    position: u64,
    at: &Coord,
    values: List<Datum>,
    test: &TypedExpr,
) -> Result<(), Memory>
    ensures { OnOk result (made.new ≡ with_cell made.old position (filter_cell test.now at.now.items (Full values))) }
{
    let filter = Filter { test };
    if let Some(cell) = filter.change(at, Cell::Full(values))? {
        made.positions.push(position)?;
        made.cells.push(cell)?;
    }
    Ok(())
}

/// Adds what a test makes of a row, which stands at a coordinate.
fn push_filtered(
    made: &mut Chunk,
    position: u64,
    at: &Coord,
    rows: &Rows,
    k: usize,
    test: &TypedExpr,
) -> Result<(), Memory>
    requires { k < length rows.now }
    ensures { OnOk result (made.new ≡ with_cell made.old position (filter_cell test.now at.now.items (Full (slice_index_or rows.now k [])))) }
{
    match walk_at(test, at.as_slice(), rows, k) {
        Small::Truth(true) => push_same(made, position, rows, k),
        Small::Truth(false) => Ok(()),
        _ => push_tested(made, position, at, rows.row(k)?, test),
    }
}

/// The chunk of what a test makes of the rows of another.
fn filtered_rows(
    schema: &Schema,
    margins: &Margins,
    chunk: &Chunk,
    rows: &Rows,
    test: &TypedExpr,
) -> Result<Chunk, Memory>
    requires framed { HasFrame schema.now margins.now.items chunk.now.at.items }
    requires placed { IsPlaced schema.now.dimensions margins.now.items chunk.now }
    requires rows { map Full rows.now ≡ chunk.now.cells }
    ensures { IfOk result (IsMadeBy (filter_rows test.now) schema.now.dimensions margins.now.items chunk.now) }
{
    let grid = grid_of(schema, margins, &chunk.at);
    let places = chunk.positions.as_slice();
    let mut made = Chunk {
        at: copy_numbers(&chunk.at),
        positions: chunk.positions.another(),
        cells: chunk.cells.another(),
    };
    let mut from = 0;
    let mut at = grid.place(0);
    for k in 0..places.len() {
        move_to(&grid, &mut at, from, places[k]);
        from = places[k];
        push_filtered(&mut made, from, &at, rows, k, test)?;
    }
    Ok(made)
}

/// The chunk of what a test that names a dimension makes of a chunk whose cells are kept as rows.
fn filtered_places(
    schema: &Schema,
    margins: &Margins,
    chunk: &Chunk,
    test: &TypedExpr,
) -> Result<Option<Chunk>, Memory>
    requires framed { HasFrame schema.now margins.now.items chunk.now.at.items }
    requires placed { IsPlaced schema.now.dimensions margins.now.items chunk.now }
    ensures { IfOk result (λ found. IfSome found (IsMadeBy (filter_rows test.now) schema.now.dimensions margins.now.items chunk.now)) }
{
    if !names_dimension(test) {
        return Ok(None);
    }
    match chunk.cells.form() {
        Form::Even(rows) => Ok(Some(filtered_rows(schema, margins, chunk, rows, test)?)),
        Form::Mixed(_) => Ok(None),
    }
}

/// The cells of a chunk where the test is true, and those that it leaves in doubt. No cell is copied.
pub fn filter_chunk(
    schema: &Schema,
    margins: &Margins,
    chunk: Chunk,
    test: &TypedExpr,
) -> Result<Chunk, Memory>
    requires framed { HasFrame schema.now margins.now.items chunk.at.items }
    requires placed { IsPlaced schema.now.dimensions margins.now.items chunk }
    ensures made { IfOk result (IsMadeBy (filter_rows test.now) schema.now.dimensions margins.now.items chunk) }
    ensures part { (rows : Items Row) → IsPart schema.now.dimensions margins.now.items rows chunk
        → IfOk result (IsPart schema.now.dimensions margins.now.items (filter_rows test.now rows)) }
{
    match filtered_places(schema, margins, &chunk, test) {
        Ok(Some(made)) => Ok(made),
        Ok(None) => change_chunk(schema, margins, chunk, &Filter { test }),
        Err(Memory) => Err(Memory),
    }
}
