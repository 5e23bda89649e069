//! The states of aggregates for the cells of rows.
ghost use Rattle.std.specs.Prelude.{◌≡◌, ◌+◌, ◌^◌, ◌<◌, ◌≤◌, ◌++◌, [], List as Items, length, IfOk};
ghost use Rattle.cell_values.specs.declared.datum.Row.{Row};
ghost use Rattle.array_rows.specs.Rows.{IsRising};
ghost use Rattle.agg_states.specs.Stands.{StandsFor};
ghost use Rattle.group_rows.specs.Counts.{cells_of};
ghost use Rattle.group_rows.specs.Grouped.{AreStatesOf};

use crate::runs::{CellRun, states_with};
use agg_states::AggState;
use cell_values::{List, Memory, Row};
use logical_plan::Aggregate;
use std::alloc::Global;

/// A state of no cells for each aggregate.
pub(crate) fn no_states(alloc: Global, aggregates: &[Aggregate]) -> Result<List<AggState>, Memory>
    ensures states { IfOk result (AreStatesOf aggregates.now []) }
    ensures cells { IfOk result (λ states. cells_of states ≤ 0) }
{
    let mut states = List::with_capacity(alloc, aggregates.len())?;
    for aggregate in aggregates {
        states.push(AggState::empty(aggregate.function))?;
    }
    Ok(states)
}

/// The state with the cells of further rows.
pub(crate) fn with_cells(
    state: AggState,
    aggregate: &Aggregate,
    rows: &[Row],
) -> Result<AggState, Memory>
    requires room { state.cells + length rows.now < 2 ^ 63 }
    ensures stands { IfOk result (λ more. (before : Items Row) → StandsFor aggregate.now before state → IsRising (before ++ rows.now)
        → StandsFor aggregate.now (before ++ rows.now) more) }
    ensures cells { IfOk result (λ more. more.cells ≡ state.cells + length rows.now) }
{
    let mut state = state;
    for row in rows {
        state.take(&row.at, &row.cell, aggregate.attribute)?;
    }
    Ok(state)
}

/// The state of each aggregate for all rows.
pub(crate) fn states_of(
    alloc: Global,
    aggregates: &[Aggregate],
    rows: &[Row],
) -> Result<List<AggState>, Memory>
    requires few { length rows.now < 2 ^ 63 }
    requires rising { IsRising rows.now }
    ensures states { IfOk result (AreStatesOf aggregates.now rows.now) }
    ensures cells { IfOk result (λ states. cells_of states ≤ length rows.now) }
{
    states_with(
        no_states(alloc, aggregates)?,
        aggregates,
        &CellRun::Rows(rows),
    )
}
