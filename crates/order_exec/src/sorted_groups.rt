//! The values of groups in their order.
ghost use Rattle.std.specs.Prelude.{◌≡◌, IfOk};
ghost use Rattle.logical_plan.specs.Ordered.{sorted_by};
ghost use Rattle.order_exec.specs.Inner.Ranked.{SortsValues, value_before};

use crate::keys::compare_values;
use cell_values::{Coord, Datum, List, Memory};
use std::alloc::Global;
use std::collections::BTreeMap;

fn in_order(values: List<Datum>) -> Result<List<Datum>, Memory>
    ensures { IfOk result (λ sorted. sorted ≡ sorted_by value_before values) }
{
    let mut values = values.into_vec();
    values.sort_by(|a, b| compare_values(a, b))?;
    Ok(List::from_vec(values))
}

/// The values of each group in their order.
pub(crate) fn sorted_groups(
    alloc: Global,
    groups: BTreeMap<Coord, List<Datum>>,
) -> Result<BTreeMap<Coord, List<Datum>>, Memory>
    ensures { IfOk result (SortsValues groups) }
{
    let mut left = groups;
    let mut sorted = BTreeMap::new(alloc);
    'sorting: while let Some((key, values)) = left.pop_first() {
        sorted.insert(key, in_order(values)?)?;
    }
    Ok(sorted)
}
