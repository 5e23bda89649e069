//! Aggregates of the rows of runs.
ghost use Rattle.std.specs.Prelude.{◌≡◌, ◌+◌, ◌<◌, ◌^◌, ◌++◌, List as Items, length, map, IfOk};
ghost use Rattle.cell_values.specs.declared.datum.Row.{Row as Placed};
ghost use Rattle.array_rows.specs.Rows.{IsRising};
ghost use Rattle.logical_plan.specs.declared.parts.Aggregate.{Aggregate as Wanted};
ghost use Rattle.logical_plan.specs.Groups.{aggregate_of, cells_of};
ghost use Rattle.agg_states.specs.Stands.{StandsFor};
ghost use Rattle.window_overlap.specs.Inner.Runs.{rows_of, AreRuns};
ghost use Rattle.window_overlap.specs.Reaches.{CanAggregate};

use crate::chunks::runs::Run;
use agg_states::AggState;
use cell_values::{Datum, List, Memory, Row};
use logical_plan::Aggregate;

/// A state that has taken further rows.
fn with_rows(state: AggState, attribute: u32, rows: &[Row]) -> Result<AggState, Memory>
    requires room { state.cells + length rows.now < 2 ^ 63 }
    ensures stands { IfOk result (λ made. (g : Wanted) (before : Items Placed) → StandsFor g before state
        → g.attribute ≡ attribute → IsRising (before ++ rows.now) → StandsFor g (before ++ rows.now) made) }
    ensures cells { IfOk result (λ made. made.cells ≡ state.cells + length rows.now) }
{
    let mut state = state;
    for row in rows {
        state.take(&row.at, &row.cell, attribute)?;
    }
    Ok(state)
}

/// The state of an aggregate for the rows of runs.
fn state_of(aggregate: &Aggregate, rows: &[Row], runs: &[Run]) -> Result<AggState, Memory>
    requires runs { AreRuns (length rows.now) runs.now }
    requires rising { IsRising (rows_of rows.now runs.now) }
    requires few { length (rows_of rows.now runs.now) < 2 ^ 63 }
    ensures { IfOk result (StandsFor aggregate.now (rows_of rows.now runs.now)) }
{
    let mut state = AggState::empty(aggregate.function);
    for run in runs {
        state = with_rows(state, aggregate.attribute, &rows[run.start..run.end])?;
    }
    Ok(state)
}

/// The aggregates of the rows of runs.
pub(crate) fn values_of(
    rows: &List<Row>,
    runs: &[Run],
    aggs: &[Aggregate],
) -> Result<List<Datum>, Memory>
    requires runs { AreRuns (length rows.now) runs.now }
    requires rising { IsRising (rows_of rows.now runs.now) }
    requires few { length (rows_of rows.now runs.now) < 2 ^ 63 }
    requires typed { CanAggregate aggs.now (rows_of rows.now runs.now) }
    ensures { IfOk result (λ values. values ≡ map (λ g. aggregate_of g (cells_of (rows_of rows.now runs.now))) aggs.now) }
{
    let mut values = List::with_capacity(rows.allocator(), aggs.len())?;
    for aggregate in aggs {
        values.push(state_of(aggregate, rows.as_slice(), runs)?.finish())?;
    }
    Ok(values)
}
