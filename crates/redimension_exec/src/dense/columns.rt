//! States of an aggregate by the places of a grid.
ghost use Rattle.std.specs.Prelude.{◌≡◌, ◌+◌, ◌<◌, ◌^◌, List as Items, length, slice_index_or, IfOk, IfSome};
ghost use Rattle.std.specs.List.{AllByRecursion, AllZip};
ghost use Rattle.cell_values.specs.declared.datum.Row.{Row as Placed};
ghost use Rattle.array_rows.specs.Rows.{IsRising};
ghost use Rattle.array_geom.specs.Geometry.{volume};
ghost use Rattle.array_geom.specs.Inner.Ranges.{IsGrid};
ghost use Rattle.logical_plan.specs.Groups.{cells_of};
ghost use Rattle.group_rows.specs.Inner.Columns.{HaveNumbers};
ghost use Rattle.redimension_exec.specs.Inner.Dense.{IsColumn, AreEmpty, Takes, landed_there, no_cells};

use agg_states::AggState;
use array_geom::Grid;
use array_rows::Cells;
use cell_values::{List, Memory};
use logical_plan::Aggregate;
use std::alloc::Global;

/// So many states of no cells.
fn empty_states(alloc: Global, aggregate: &Aggregate, count: usize) -> Result<Vec<AggState>, Memory>
    ensures empty { IfOk result (λ states. AreEmpty aggregate.now states.items) }
    ensures long { IfOk result (λ states. length states.items ≡ count) }
{
    let mut states = List::with_capacity(alloc, count)?;
    for _ in 0..count {
        states.push(AggState::empty(aggregate.function))?;
    }
    Ok(states.into_vec())
}

/// Takes a number into the state at a place.
fn take_at(states: &mut Vec<AggState>, place: usize, number: i64)
    requires inside { place < length states.old.items }
    requires room { (slice_index_or states.old.items place no_cells).cells + 1 < 2 ^ 63 }
    ensures { Takes place number states.old.items states.new.items }
{
    states[place].take_number(number);
}

/// For each place of a grid the state of the numbers that landed there.
fn column_of(
    alloc: Global,
    aggregate: &Aggregate,
    to: &Grid,
    targets: &[u64],
    numbers: &[i64],
) -> Result<List<AggState>, Memory>
    requires grid { IsGrid to.now }
    requires below { AllByRecursion (λ t. t < volume to.now.lengths.items) targets.now }
    requires each { length numbers.now ≡ length targets.now }
    requires few { length targets.now < 2 ^ 63 }
    ensures { IfOk result (λ states. (rows : Items Placed) → IsRising rows → HaveNumbers aggregate.now.attribute numbers.now (cells_of rows)
        → IsColumn aggregate.now to.now (landed_there to.now targets.now rows) states) }
{
    let mut states = empty_states(alloc, aggregate, to.volume() as usize)?;
    for k in 0..targets.len() {
        take_at(&mut states, targets[k] as usize, numbers[k]);
    }
    Ok(List::from_vec(states))
}

/// The same of cells, if all values of the aggregate's attribute are kept as numbers.
fn column_of_cells(
    alloc: Global,
    aggregate: &Aggregate,
    to: &Grid,
    targets: &[u64],
    cells: &Cells,
) -> Result<Option<List<AggState>>, Memory>
    requires grid { IsGrid to.now }
    requires below { AllByRecursion (λ t. t < volume to.now.lengths.items) targets.now }
    requires each { length cells.now ≡ length targets.now }
    requires few { length targets.now < 2 ^ 63 }
    ensures { IfOk result (λ found. IfSome found (λ states. (rows : Items Placed) → IsRising rows → cells_of rows ≡ cells.now
        → IsColumn aggregate.now to.now (landed_there to.now targets.now rows) states)) }
{
    match cells.numbers(aggregate.attribute as usize) {
        Some(numbers) => {
            let states = column_of(alloc, aggregate, to, targets, numbers)?;
            Ok(Some(states))
        }
        None => Ok(None),
    }
}

/// The same for each aggregate.
pub(crate) fn columns_of(
    alloc: Global,
    aggregates: &[Aggregate],
    to: &Grid,
    targets: &[u64],
    cells: &Cells,
) -> Result<Option<List<List<AggState>>>, Memory>
    requires grid { IsGrid to.now }
    requires below { AllByRecursion (λ t. t < volume to.now.lengths.items) targets.now }
    requires each { length cells.now ≡ length targets.now }
    requires few { length targets.now < 2 ^ 63 }
    ensures { IfOk result (λ found. IfSome found (λ columns. (rows : Items Placed) → IsRising rows → cells_of rows ≡ cells.now
        → AllZip (λ g states. IsColumn g to.now (landed_there to.now targets.now rows) states) aggregates.now columns)) }
{
    let mut columns = List::with_capacity(alloc, aggregates.len())?;
    for aggregate in aggregates {
        let Some(states) = column_of_cells(alloc, aggregate, to, targets, cells)? else {
            return Ok(None);
        };
        columns.push(states)?;
    }
    Ok(Some(columns))
}
