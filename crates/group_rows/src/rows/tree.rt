//! States of the cells of each group, by the coordinates of the groups.
ghost use Rattle.std.specs.Prelude.{◌≡◌, ◌+◌, ◌^◌, ◌<◌, ◌≤◌, ◌++◌, List as Items, length, IfOk, OnOk};
ghost use Rattle.array_rows.specs.Rows.{IsRising};
ghost use Rattle.logical_plan.specs.declared.parts.Aggregate.{Aggregate};
ghost use Rattle.group_rows.specs.Counts.{cells_in};
ghost use Rattle.group_rows.specs.Grouped.{AreGroupsOf};
ghost use Rattle.group_rows.specs.Sets.{Sets};
ghost use Rattle.group_rows.specs.Taken.{KeepsGroups, cells_kept, rows_of, sets_with};

use crate::rows::groups::{Group, Groups};
use crate::runs::{CellRun, take_cells};
use agg_states::AggState;
use cell_values::{Coord, List, Memory, Row};
use logical_plan::Aggregate;
use std::alloc::Global;
use std::collections::BTreeMap;

/// Takes the cells of rows into the states of the group at a coordinate.
pub fn take_rows(
    groups: &mut BTreeMap<Coord, List<AggState>>,
    alloc: Global,
    aggregates: &[Aggregate],
    at: &Coord,
    rows: &[Row],
) -> Result<(), Memory>
    requires room { cells_kept groups.old.entries + length rows.now < 2 ^ 63 }
    ensures states { OnOk result ((sets : Sets) → KeepsGroups aggregates.now sets groups.old → IsRising (rows_of (sets at.now.items) ++ rows.now)
        → KeepsGroups aggregates.now (sets_with at.now.items rows.now sets) groups.new) }
    ensures cells { OnOk result (cells_kept groups.new.entries ≤ cells_kept groups.old.entries + length rows.now) }
{
    take_cells(groups, alloc, aggregates, at, &CellRun::Rows(rows))
}

/// The groups of all coordinates, in row-major order.
pub fn groups_in(alloc: Global, groups: BTreeMap<Coord, List<AggState>>) -> Result<Groups, Memory>
    ensures groups { IfOk result (λ made. (gs : Items Aggregate) (sets : Sets) → KeepsGroups gs sets groups → AreGroupsOf gs sets made.groups) }
    ensures cells { IfOk result (λ made. cells_in made.groups ≡ cells_kept groups.entries) }
{
    let mut made = List::with_capacity(alloc, groups.len())?;
    let mut groups = groups;
    'moving: while let Some((at, states)) = groups.pop_first() {
        made.push(Group { at, states })?;
    }
    Ok(Groups { groups: made })
}
