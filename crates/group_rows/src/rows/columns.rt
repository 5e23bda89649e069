//! The group of all cells of an area whose values stand in columns of numbers: no cell is looked at alone.
ghost use Rattle.std.specs.Prelude.{◌≡◌, ◌+◌, ◌^◌, ◌<◌, ◌≤◌, true, false, None, List as Items, length, IfOk, IfSome};
ghost use Rattle.cell_values.specs.declared.datum.Cell.{Cell};
ghost use Rattle.cell_values.specs.declared.datum.Datum.TheVariants.{Int};
ghost use Rattle.cell_values.specs.declared.datum.Row.{Row};
ghost use Rattle.cell_values.specs.declared.schema.Bounds.{Bounds};
ghost use Rattle.array_rows.specs.Boxes.{within};
ghost use Rattle.array_rows.specs.Rows.{IsRising, cell_at, put_row};
ghost use Rattle.logical_plan.specs.declared.parts.Aggregate.{Aggregate};
ghost use Rattle.logical_plan.specs.Groups.{attribute_of, cells_of, fault_for};
ghost use Rattle.agg_states.specs.Stands.{StandsFor};
ghost use Rattle.group_rows.specs.Counts.{cells_in};
ghost use Rattle.group_rows.specs.Grouped.{AreGroupsOf};
ghost use Rattle.group_rows.specs.Inner.Columns.{AreStatesInside, HaveNumbers, StandsForInside, are_inside};
ghost use Rattle.group_rows.specs.Sets.{one_set};

use crate::rows::groups::{Groups, alone};
use agg_states::AggState;
use array_rows::Cells;
use cell_values::{Coord, List, Memory};
use logical_plan::Aggregate;
use std::alloc::Global;

/// Takes a number if it is wanted.
fn take_if(state: &mut AggState, number: i64, wanted: bool)
    requires room { state.old.cells + 1 < 2 ^ 63 }
    ensures stands { wanted ≡ true → (g : Aggregate) (rows : Items Row) (new : Row) → StandsFor g rows state.old → attribute_of g.attribute new.cell ≡ Int number
        → fault_for g.function g.attribute new.cell ≡ None → cell_at rows new.at.items ≡ None → StandsFor g (put_row new rows) state.new }
    ensures same { wanted ≡ false → state.new ≡ state.old }
    ensures cells { state.new.cells ≤ state.old.cells + 1 }
{
    if !wanted {
        return;
    }
    state.take_number(number);
}

fn state_of_numbers(aggregate: &Aggregate, numbers: &[i64], inside: &[bool]) -> AggState
    requires few { length numbers.now < 2 ^ 63 }
    requires each { length inside.now ≡ length numbers.now }
    ensures { (cells : Items Cell) → HaveNumbers aggregate.now.attribute numbers.now cells → StandsForInside aggregate.now inside.now cells result }
{
    let mut state = AggState::empty(aggregate.function);
    for place in 0..numbers.len() {
        take_if(&mut state, numbers[place], inside[place]);
    }
    state
}

/// The state of an aggregate for the cells inside, if all values of its attribute are kept as numbers.
fn state_of_column(aggregate: &Aggregate, cells: &Cells, inside: &[bool]) -> Option<AggState>
    requires few { length cells.now < 2 ^ 63 }
    requires each { length inside.now ≡ length cells.now }
    ensures { IfSome result (StandsForInside aggregate.now inside.now cells.now) }
{
    match cells.numbers(aggregate.attribute as usize) {
        Some(numbers) => Some(state_of_numbers(aggregate, numbers, inside)),
        None => None,
    }
}

/// The state of each aggregate for the cells inside, if all values of each are kept as numbers.
fn states_of_columns(
    alloc: Global,
    aggregates: &[Aggregate],
    cells: &Cells,
    inside: &[bool],
) -> Result<Option<List<AggState>>, Memory>
    requires few { length cells.now < 2 ^ 63 }
    requires each { length inside.now ≡ length cells.now }
    ensures { IfOk result (λ found. IfSome found (AreStatesInside aggregates.now inside.now cells.now)) }
{
    let mut states = List::with_capacity(alloc, aggregates.len())?;
    for aggregate in aggregates {
        let Some(state) = state_of_column(aggregate, cells, inside) else {
            return Ok(None);
        };
        states.push(state)?;
    }
    Ok(Some(states))
}

/// All cells inside in one group at a coordinate, if all values of each aggregate are kept as numbers.
pub fn one_of_columns(
    alloc: Global,
    aggregates: &[Aggregate],
    at: &Coord,
    cells: &Cells,
    inside: &[bool],
) -> Result<Option<Groups>, Memory>
    requires few { length cells.now < 2 ^ 63 }
    requires each { length inside.now ≡ length cells.now }
    ensures groups { (area : Bounds) (rows : Items Row) → IsRising rows → cells_of rows ≡ cells.now → are_inside area rows ≡ inside.now
        → IfOk result (λ found. IfSome found (λ part. AreGroupsOf aggregates.now (one_set at.now.items (within area rows)) part.groups)) }
    ensures cells { (area : Bounds) (rows : Items Row) → IsRising rows → cells_of rows ≡ cells.now → are_inside area rows ≡ inside.now
        → IfOk result (λ found. IfSome found (λ part. cells_in part.groups ≤ length (within area rows))) }
{
    match states_of_columns(alloc, aggregates, cells, inside)? {
        None => Ok(None),
        Some(states) => Ok(Some(alone(alloc, at, states)?)),
    }
}
