//! The values of expressions over the rows of a chunk, in columns.
ghost use Rattle.std.specs.Prelude.{◌≡◌, ◌<◌, [], ◌∷◌, ◌++◌, length, map, slice_index_or, OnOk, IfOk};
ghost use Rattle.std.specs.List.{AllByRecursion};
ghost use Rattle.array_rows.specs.Boxes.{by_pairs};
ghost use Rattle.array_geom.specs.Geometry.{volume};
ghost use Rattle.array_geom.specs.Inner.Ranges.{IsGrid};
ghost use Rattle.cell_values.specs.declared.datum.Cell.TheVariants.{Full};
ghost use Rattle.expr_nulls.specs.ExprValue.{value_of};
ghost use Rattle.exec_cellwise.specs.Inner.Computed.{applied_at, behind, value_there, values_there};

use crate::chunks::places::move_to;
use crate::columns::walk_at;
use array_geom::Grid;
use array_rows::{Cells, Column, Rows, Small};
use cell_values::{Coord, Datum, Memory};
use expr_nulls::{TypedExpr, eval};
use logical_plan::Applied;
use std::alloc::Global;

/// The value of an expression over a row's list of values.
fn eval_row(
    alloc: Global,
    value: &TypedExpr,
    at: &Coord,
    rows: &Rows,
    k: usize,
) -> Result<Datum, Memory>
    requires { k < length rows.now }
    ensures { IfOk result (λ made. made ≡ value_of value.now at.now.items (slice_index_or rows.now k [])) }
{
    let values = rows.row(k)?;
    eval(alloc, value, at, values.as_slice())
}

/// Adds the value of an expression at a row, which stands at a coordinate.
fn push_value(
    alloc: Global,
    column: &mut Column,
    value: &TypedExpr,
    at: &Coord,
    rows: &Rows,
    k: usize,
) -> Result<(), Memory>
    requires { k < length rows.now }
    ensures { OnOk result (column.new ≡ column.old ++ value_of value.now at.now.items (slice_index_or rows.now k []) ∷ []) }
{
    match walk_at(value, at.as_slice(), rows, k) {
        Small::Number(number) => column.push(Datum::Int(number)),
        Small::Truth(truth) => column.push(Datum::Truth(truth)),
        Small::Other => column.push(eval_row(alloc, value, at, rows, k)?),
    }
}

/// The values of an expression at rows, by their places in a grid.
fn computed_column(
    alloc: Global,
    value: &TypedExpr,
    grid: &Grid,
    places: &[u64],
    rows: &Rows,
) -> Result<Column, Memory>
    requires grid { IsGrid grid.now }
    requires inside { AllByRecursion (λ p. p < volume grid.now.lengths.items) places.now }
    requires each { length rows.now ≡ length places.now }
    ensures { IfOk result (λ column. column ≡ by_pairs (value_there grid.now.low.items grid.now.lengths.items value.now) places.now rows.now) }
{
    let mut column = Column::new(alloc);
    let mut from = 0;
    let mut at = grid.place(0);
    for k in 0..places.len() {
        move_to(grid, &mut at, from, places[k]);
        from = places[k];
        push_value(alloc, &mut column, value, &at, rows, k)?;
    }
    Ok(column)
}

fn computed_columns(
    alloc: Global,
    values: &[Applied],
    grid: &Grid,
    places: &[u64],
    rows: &Rows,
) -> Result<Vec<Column>, Memory>
    requires grid { IsGrid grid.now }
    requires inside { AllByRecursion (λ p. p < volume grid.now.lengths.items) places.now }
    requires each { length rows.now ≡ length places.now }
    ensures { IfOk result (λ columns. columns.items ≡ map (λ applied. by_pairs (value_there grid.now.low.items grid.now.lengths.items applied.value) places.now rows.now) values.now) }
{
    let mut columns = Vec::with_capacity(alloc, values.len())?;
    for applied in values {
        columns.push(computed_column(alloc, &applied.value, grid, places, rows)?)?;
    }
    Ok(columns)
}

/// The values of expressions at rows, by their places in a grid.
fn computed_rows(
    alloc: Global,
    values: &[Applied],
    grid: &Grid,
    places: &[u64],
    rows: &Rows,
) -> Result<Rows, Memory>
    requires grid { IsGrid grid.now }
    requires inside { AllByRecursion (λ p. p < volume grid.now.lengths.items) places.now }
    requires each { length rows.now ≡ length places.now }
    ensures { IfOk result (λ made. made ≡ by_pairs (values_there grid.now.low.items grid.now.lengths.items values.now) places.now rows.now) }
{
    let columns = computed_columns(alloc, values, grid, places, rows)?;
    Ok(Rows::from_columns(columns, places.len()))
}

/// Rows with the values of others behind their own, as cells. Columns are moved, and no value is copied.
fn cells_of_both(alloc: Global, rows: Rows, more: Rows) -> Result<Cells, Memory>
    requires { length more ≡ length rows }
    ensures { IfOk result (λ cells. cells ≡ by_pairs behind rows more) }
{
    let mut both = rows;
    match both.append_columns(more) {
        Ok(()) => Ok(Cells::from_rows(alloc, both)),
        Err(Memory) => Err(Memory),
    }
}

/// Cells of a chunk, which are rows, with the values of expressions behind their own.
pub(crate) fn applied_rows(
    alloc: Global,
    values: &[Applied],
    grid: &Grid,
    places: &[u64],
    rows: Rows,
) -> Result<Cells, Memory>
    requires grid { IsGrid grid.now }
    requires inside { AllByRecursion (λ p. p < volume grid.now.lengths.items) places.now }
    requires each { length rows ≡ length places.now }
    ensures { IfOk result (λ cells. cells ≡ by_pairs (applied_at grid.now.low.items grid.now.lengths.items values.now) places.now (map Full rows)) }
{
    match computed_rows(alloc, values, grid, places, &rows) {
        Ok(more) => cells_of_both(alloc, rows, more),
        Err(Memory) => Err(Memory),
    }
}
