//! What the states of groups tell.
ghost use Rattle.std.specs.Prelude.{◌≡◌, IfOk};
ghost use Rattle.std.specs.List.{AllZip};
ghost use Rattle.group_rows.specs.Told.{IsTold, IsRowOf};

use crate::rows::{Group, Groups};
use agg_states::AggState;
use cell_values::{Cell, Datum, List, Memory, Row};
use std::collections::VecDeque;

fn values_told(states: List<AggState>) -> Result<List<Datum>, Memory>
    ensures { IfOk result (AllZip IsTold states) }
{
    let mut states = states;
    match states.pop() {
        None => Ok(states.another()),
        Some(state) => {
            let mut values = values_told(states)?;
            values.push(state.finish())?;
            Ok(values)
        }
    }
}

fn row_told(group: Group) -> Result<Row, Memory>
    ensures { IfOk result (IsRowOf group) }
{
    let values = values_told(group.states)?;
    Ok(Row {
        at: group.at,
        cell: Cell::Full(values),
    })
}

/// A row for each group, with the aggregates of its cells.
pub fn rows_told(groups: Groups) -> Result<List<Row>, Memory>
    ensures { IfOk result (AllZip IsRowOf groups.groups) }
{
    let mut rows = groups.groups.another();
    let mut groups = VecDeque::from_vec(groups.groups.into_vec());
    while let Some(group) = groups.pop_front() {
        rows.push(row_told(group)?)?;
    }
    Ok(rows)
}
