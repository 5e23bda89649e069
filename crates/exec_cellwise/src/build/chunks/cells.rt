//! The cells of a box in a chunk's frame.
ghost use Rattle.std.specs.Prelude.{◌≡◌, ℕ, ℤ, ◌+◌, ◌≤◌, ◌<◌, ◌≤ℤ◌, true, List as Items, [], ◌∷◌, ◌++◌, length, IsTrue, IfOk, OnOk};
ghost use Rattle.cell_values.specs.declared.datum.Cell.TheVariants.{Full};
ghost use Rattle.cell_values.specs.declared.datum.Datum.TheVariants.{Int};
ghost use Rattle.array_rows.specs.Boxes.{is_between};
ghost use Rattle.array_rows.specs.Rows.{Coordinate};
ghost use Rattle.array_geom.specs.Geometry.{position_in};
ghost use Rattle.array_geom.specs.Inner.Ranges.{IsGrid, is_in_grid};
ghost use Rattle.expr_nulls.specs.ExprValue.{value_of};
ghost use Rattle.logical_plan.specs.CellOps.{fit_values};
ghost use Rattle.exec_cellwise.specs.Inner.Rows.{built_row};
ghost use Rattle.exec_cellwise.specs.Inner.Walks.{TakesRows, rows_between};

use crate::build::chunks::quickly::number_of;
use crate::build::rows::{count_of, fitted, number_at};
use array_geom::{Chunk, Grid};
use cell_values::{Attribute, Coord, Datum, Memory, copy_coord};
use expr_nulls::{TypedExpr, eval};
use std::alloc::Global;
use std::slice::from_ref;

fn computed_value(
    alloc: Global,
    attributes: &[Attribute],
    value: &TypedExpr,
    at: &Coord,
) -> Result<Datum, Memory>
    ensures { IfOk result (λ made. made ∷ [] ≡ fit_values attributes.now (value_of value.now at.now.items [] ∷ [])) }
{
    let made = eval(alloc, value, at, &[])?;
    Ok(fitted(attributes, made))
}

/// Adds a cell of one value at a place, without a list of its own.
fn push_value(chunk: &mut Chunk, place: u64, made: &Datum) -> Result<(), Memory>
    ensures number { chunk.new.at ≡ chunk.old.at }
    ensures positions { OnOk result (chunk.new.positions ≡ chunk.old.positions ++ place ∷ []) }
    ensures cells { OnOk result (chunk.new.cells ≡ chunk.old.cells ++ Full (made.now ∷ []) ∷ []) }
{
    chunk.positions.push(place)?;
    chunk.cells.push_values(from_ref(made))
}

/// Adds a cell of one number at a place, without a value of its own.
fn push_number(chunk: &mut Chunk, place: u64, made: i64) -> Result<(), Memory>
    ensures number { chunk.new.at ≡ chunk.old.at }
    ensures positions { OnOk result (chunk.new.positions ≡ chunk.old.positions ++ place ∷ []) }
    ensures cells { OnOk result (chunk.new.cells ≡ chunk.old.cells ++ Full (Int made ∷ []) ∷ []) }
{
    chunk.positions.push(place)?;
    chunk.cells.push_number(made)
}

/// Adds the cell at a coordinate, whose place in a grid is this, with the value that is computed there.
fn add_computed(
    alloc: Global,
    attributes: &[Attribute],
    value: &TypedExpr,
    at: &Coord,
    place: u64,
    chunk: &mut Chunk,
) -> Result<(), Memory>
    ensures { (low : Items ℤ) (lengths : Items ℕ) → is_in_grid low lengths at.now.items ≡ true → place ≡ position_in low lengths at.now.items
        → OnOk result (TakesRows low lengths (built_row attributes.now value.now at.now.items ∷ []) chunk.old chunk.new) }
{
    let made = computed_value(alloc, attributes, value, at)?;
    let pushed = push_value(chunk, place, &made);
    drop(made);
    pushed
}

/// Adds the cell at a coordinate, whose place in a grid is this.
fn add_placed(
    alloc: Global,
    attributes: &[Attribute],
    value: &TypedExpr,
    at: &Coord,
    place: u64,
    chunk: &mut Chunk,
) -> Result<(), Memory>
    ensures { (low : Items ℤ) (lengths : Items ℕ) → is_in_grid low lengths at.now.items ≡ true → place ≡ position_in low lengths at.now.items
        → OnOk result (TakesRows low lengths (built_row attributes.now value.now at.now.items ∷ []) chunk.old chunk.new) }
{
    match number_of(value, at.as_slice()) {
        Some(number) => push_number(chunk, place, number),
        None => add_computed(alloc, attributes, value, at, place, chunk),
    }
}

/// Adds the cell at a coordinate.
fn add_cell(
    alloc: Global,
    attributes: &[Attribute],
    value: &TypedExpr,
    grid: &Grid,
    at: &Coord,
    chunk: &mut Chunk,
) -> Result<(), Memory>
    requires grid { IsGrid grid.now }
    requires inside { IsTrue (is_in_grid grid.now.low.items grid.now.lengths.items at.now.items) }
    ensures { OnOk result (TakesRows grid.now.low.items grid.now.lengths.items (built_row attributes.now value.now at.now.items ∷ []) chunk.old chunk.new) }
{
    let place = grid.position(at);
    add_placed(alloc, attributes, value, at, place, chunk)
}

/// The place of the first coordinate that ends with a number between these, if there is one.
fn first_place(grid: &Grid, at: &Coord, low: &i64, high: &i64) -> u64
    requires room { length at.now.items < 6 }
    requires grid { IsGrid grid.now }
    requires inside { (c : Coordinate) → is_between (low.now ∷ []) (high.now ∷ []) c ≡ true → is_in_grid grid.now.low.items grid.now.lengths.items (at.now.items ++ c) ≡ true }
    ensures { low.now ≤ℤ high.now → result ≡ position_in grid.now.low.items grid.now.lengths.items (at.now.items ++ low.now ∷ []) }
{
    if *high < *low {
        return 0;
    }
    let mut first = copy_coord(at);
    first.push(*low);
    grid.position(&first)
}

/// The place of a coordinate that comes so far behind the one at `first`.
fn place_behind(grid: &Grid, at: &Coord, first: u64, offset: u64) -> u64
    requires grid { IsGrid grid.now }
    requires inside { IsTrue (is_in_grid grid.now.low.items grid.now.lengths.items at.now.items) }
    requires place { position_in grid.now.low.items grid.now.lengths.items at.now.items ≡ first + offset }
    ensures { result ≡ position_in grid.now.low.items grid.now.lengths.items at.now.items }
{
    let _ = grid;
    let _ = at;
    first + offset
}

/// Adds the cells along the last dimension, whose places come one after the other.
fn add_run(
    alloc: Global,
    attributes: &[Attribute],
    value: &TypedExpr,
    grid: &Grid,
    at: &Coord,
    low: &i64,
    high: &i64,
    chunk: &mut Chunk,
) -> Result<(), Memory>
    requires room { length at.now.items < 6 }
    requires grid { IsGrid grid.now }
    requires inside { (c : Coordinate) → is_between (low.now ∷ []) (high.now ∷ []) c ≡ true → is_in_grid grid.now.low.items grid.now.lengths.items (at.now.items ++ c) ≡ true }
    ensures { OnOk result (TakesRows grid.now.low.items grid.now.lengths.items
        (rows_between (built_row attributes.now value.now) at.now.items (low.now ∷ []) (high.now ∷ [])) chunk.old chunk.new) }
{
    let first = first_place(grid, at, low, high);
    let mut next = copy_coord(at);
    for offset in 0..count_of(*low, *high)? {
        next.truncate(at.len());
        next.push(number_at(*low, *high, offset));
        let place = place_behind(grid, &next, first, offset);
        add_placed(alloc, attributes, value, &next, place, chunk)?;
    }
    Ok(())
}

/// Adds the cells at the coordinates that begin so and go on between these corners.
#[cycle(add_cells)]
pub(crate) fn add_cells(
    alloc: Global,
    attributes: &[Attribute],
    value: &TypedExpr,
    grid: &Grid,
    at: &Coord,
    lo: &[i64],
    hi: &[i64],
    chunk: &mut Chunk,
) -> Result<(), Memory>
    requires room { length at.now.items + length lo.now ≤ 6 }
    requires grid { IsGrid grid.now }
    requires inside { (c : Coordinate) → is_between lo.now hi.now c ≡ true → is_in_grid grid.now.low.items grid.now.lengths.items (at.now.items ++ c) ≡ true }
    ensures { OnOk result (TakesRows grid.now.low.items grid.now.lengths.items
        (rows_between (built_row attributes.now value.now) at.now.items lo.now hi.now) chunk.old chunk.new) }
{
    match lo {
        [] => match hi {
            [] => add_cell(alloc, attributes, value, grid, at, chunk),
            _ => Ok(()),
        },
        [low, lo @ ..] => match hi {
            [] => Ok(()),
            [high, hi @ ..] => {
                add_first(alloc, attributes, value, grid, at, low, high, lo, hi, chunk)
            }
        },
    }
}

/// Whether no dimension follows.
fn are_last(lo: &[i64], hi: &[i64]) -> bool
    ensures { IsTrue result → (length lo.now ≡ 0) × (length hi.now ≡ 0) }
{
    lo.is_empty() && hi.is_empty()
}

/// Adds the cells along a first dimension, which may be the last one, and along the rest.
#[cycle(add_cells)]
fn add_first(
    alloc: Global,
    attributes: &[Attribute],
    value: &TypedExpr,
    grid: &Grid,
    at: &Coord,
    low: &i64,
    high: &i64,
    lo: &[i64],
    hi: &[i64],
    chunk: &mut Chunk,
) -> Result<(), Memory>
    requires room { length at.now.items + length lo.now < 6 }
    requires grid { IsGrid grid.now }
    requires inside { (c : Coordinate) → is_between (low.now ∷ lo.now) (high.now ∷ hi.now) c ≡ true → is_in_grid grid.now.low.items grid.now.lengths.items (at.now.items ++ c) ≡ true }
    ensures { OnOk result (TakesRows grid.now.low.items grid.now.lengths.items
        (rows_between (built_row attributes.now value.now) at.now.items (low.now ∷ lo.now) (high.now ∷ hi.now)) chunk.old chunk.new) }
{
    if are_last(lo, hi) {
        add_run(alloc, attributes, value, grid, at, low, high, chunk)
    } else {
        add_along(alloc, attributes, value, grid, at, low, high, lo, hi, chunk)
    }
}

/// Adds the cells along a first dimension, and then along the rest.
#[cycle(add_cells)]
fn add_along(
    alloc: Global,
    attributes: &[Attribute],
    value: &TypedExpr,
    grid: &Grid,
    at: &Coord,
    low: &i64,
    high: &i64,
    lo: &[i64],
    hi: &[i64],
    chunk: &mut Chunk,
) -> Result<(), Memory>
    requires room { length at.now.items + length lo.now < 6 }
    requires grid { IsGrid grid.now }
    requires inside { (c : Coordinate) → is_between (low.now ∷ lo.now) (high.now ∷ hi.now) c ≡ true
        → is_in_grid grid.now.low.items grid.now.lengths.items (at.now.items ++ c) ≡ true }
    ensures { OnOk result (TakesRows grid.now.low.items grid.now.lengths.items
        (rows_between (built_row attributes.now value.now) at.now.items (low.now ∷ lo.now) (high.now ∷ hi.now)) chunk.old chunk.new) }
{
    for offset in 0..count_of(*low, *high)? {
        let mut next = copy_coord(at);
        next.push(number_at(*low, *high, offset));
        add_cells(alloc, attributes, value, grid, &next, lo, hi, chunk)?;
    }
    Ok(())
}
