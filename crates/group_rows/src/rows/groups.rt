//! Groups of cells.
ghost use Rattle.std.specs.Prelude.{◌≤◌, List as Items, length, IfOk};
ghost use Rattle.cell_values.specs.declared.datum.Row.{Row};
ghost use Rattle.array_rows.specs.Rows.{IsRising};
ghost use Rattle.logical_plan.specs.declared.parts.Aggregate.{Aggregate};
ghost use Rattle.group_rows.specs.Counts.{cells_in};
ghost use Rattle.group_rows.specs.Grouped.{AreGroupsOf, AreStatesOf};
ghost use Rattle.group_rows.specs.Sets.{one_set};

use agg_states::AggState;
use cell_values::{Coord, List, Memory, copy_coord};
use std::alloc::Global;

/// A group of cells: its coordinate, and a state for each aggregate.
#[derive(Drop)]
pub struct Group {
    pub at: Coord,
    pub states: List<AggState>,
}

/// The groups of a part of an array, by their coordinates in row-major order.
#[derive(Drop)]
pub struct Groups {
    pub groups: List<Group>,
}

/// One group with these states, at a coordinate.
pub(crate) fn alone(alloc: Global, at: &Coord, states: List<AggState>) -> Result<Groups, Memory>
    ensures groups { IfOk result (λ made. (gs : Items Aggregate) (rows : Items Row) → IsRising rows → AreStatesOf gs rows states
        → AreGroupsOf gs (one_set at.now.items rows) made.groups) }
    ensures cells { IfOk result (λ made. (gs : Items Aggregate) (rows : Items Row) → AreStatesOf gs rows states → cells_in made.groups ≤ length rows) }
{
    let mut groups = List::new(alloc);
    groups.push(Group {
        at: copy_coord(at),
        states,
    })?;
    Ok(Groups { groups })
}
