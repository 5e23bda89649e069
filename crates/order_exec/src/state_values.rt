//! The values of the states of a line.
ghost use Rattle.std.specs.Prelude.{◌≡◌, IfOk};
ghost use Rattle.std.specs.List.{AllZip};
ghost use Rattle.group_rows.specs.Told.{IsTold};

use agg_states::AggState;
use cell_values::{Datum, List, Memory};

/// The value of each state.
pub(crate) fn values_of(states: &List<AggState>) -> Result<List<Datum>, Memory>
    ensures { IfOk result (AllZip IsTold states.now) }
{
    let mut values = List::with_capacity(states.allocator(), states.len())?;
    for state in states.as_slice() {
        values.push(state.value()?)?;
    }
    Ok(values)
}
