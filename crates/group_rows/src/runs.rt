//! Runs of cells, which are taken one after the other into the states of one group.
ghost use Rattle.std.specs.Prelude.{◌≡◌, ◌+◌, ◌^◌, ◌<◌, ◌≤◌, ◌++◌, List as Items, IfOk, OnOk};
ghost use Rattle.cell_values.specs.declared.datum.Row.{Row as Placed};
ghost use Rattle.array_rows.specs.Rows.{IsRising};
ghost use Rattle.agg_states.specs.Stands.{StandsFor};
ghost use Rattle.group_rows.specs.Counts.{cells_of};
ghost use Rattle.group_rows.specs.Grouped.{AreStatesOf};
ghost use Rattle.group_rows.specs.Inner.Runs.{IsRun, places_in, rows_in};
ghost use Rattle.group_rows.specs.Sets.{Sets};
ghost use Rattle.group_rows.specs.Taken.{KeepsGroups, cells_kept, rows_of, sets_with};

use crate::places::with_column;
use crate::rows::{no_states, with_cells};
use agg_states::AggState;
use array_geom::Grid;
use array_rows::Cells;
use cell_values::{Coord, List, Memory, Row, copy_coord};
use logical_plan::Aggregate;
use std::alloc::Global;
use std::collections::BTreeMap;

/// Cells in row-major order.
#[derive(Drop)]
pub(crate) enum CellRun<'a> {
    /// Those of rows.
    Rows(&'a [Row]),
    /// Those at places of a grid, which stand from a number on.
    Places(&'a Grid, &'a [u64], &'a Cells, usize),
}

/// The state with the cells of a run.
fn state_with(state: AggState, aggregate: &Aggregate, run: &CellRun<'_>) -> Result<AggState, Memory>
    requires run { IsRun run.now }
    requires room { state.cells + places_in run.now < 2 ^ 63 }
    ensures stands { IfOk result (λ more. (before : Items Placed) → StandsFor aggregate.now before state → IsRising (before ++ rows_in run.now)
        → StandsFor aggregate.now (before ++ rows_in run.now) more) }
    ensures cells { IfOk result (λ more. more.cells ≡ state.cells + places_in run.now) }
{
    match run {
        CellRun::Rows(rows) => with_cells(state, aggregate, rows),
        CellRun::Places(grid, positions, cells, from) => {
            with_column(state, aggregate, grid, positions, cells, *from)
        }
    }
}

/// Each state with the cells of a run.
pub(crate) fn states_with(
    states: List<AggState>,
    aggregates: &[Aggregate],
    run: &CellRun<'_>,
) -> Result<List<AggState>, Memory>
    requires run { IsRun run.now }
    requires room { cells_of states + places_in run.now < 2 ^ 63 }
    ensures states { IfOk result (λ more. (before : Items Placed) → AreStatesOf aggregates.now before states → IsRising (before ++ rows_in run.now)
        → AreStatesOf aggregates.now (before ++ rows_in run.now) more) }
    ensures cells { IfOk result (λ more. cells_of more ≤ cells_of states + places_in run.now) }
{
    let mut states = states;
    match states.pop() {
        None => Ok(states),
        Some(state) => match aggregates.split_last() {
            None => Ok(states),
            Some((aggregate, before)) => {
                let mut more = states_with(states, before, run)?;
                more.push(state_with(state, aggregate, run)?)?;
                Ok(more)
            }
        },
    }
}

/// Takes the cells of a run into the states of the group at a coordinate.
pub(crate) fn take_cells(
    groups: &mut BTreeMap<Coord, List<AggState>>,
    alloc: Global,
    aggregates: &[Aggregate],
    at: &Coord,
    run: &CellRun<'_>,
) -> Result<(), Memory>
    requires run { IsRun run.now }
    requires room { cells_kept groups.old.entries + places_in run.now < 2 ^ 63 }
    ensures states { OnOk result ((sets : Sets) → KeepsGroups aggregates.now sets groups.old
        → IsRising (rows_of (sets at.now.items) ++ rows_in run.now)
        → KeepsGroups aggregates.now (sets_with at.now.items (rows_in run.now) sets) groups.new) }
    ensures cells { OnOk result (cells_kept groups.new.entries ≤ cells_kept groups.old.entries + places_in run.now) }
{
    match groups.get_mut(at) {
        Some(states) => {
            *states = states_with(states.take(), aggregates, run)?;
            Ok(())
        }
        None => {
            let states = states_with(no_states(alloc, aggregates)?, aggregates, run)?;
            groups.insert(copy_coord(at), states)?;
            Ok(())
        }
    }
}
