//! Cells at places of a grid, taken group by group.
ghost use Rattle.std.specs.Prelude.{◌≡◌, ◌+◌, ◌^◌, ◌<◌, ◌≤◌, ◌++◌, List as Items, length, take, IfOk};
ghost use Rattle.std.specs.Ordering.{is_eq};
ghost use Rattle.cell_values.specs.declared.datum.Row.{Row};
ghost use Rattle.cell_values.specs.declared.schema.Bounds.{Bounds};
ghost use Rattle.array_rows.specs.Boxes.{within};
ghost use Rattle.array_rows.specs.Rows.{IsRising, row_major};
ghost use Rattle.array_geom.specs.Inner.Ranges.{IsGrid};
ghost use Rattle.group_rows.specs.Counts.{cells_in};
ghost use Rattle.group_rows.specs.Grouped.{AreGroupsOf};
ghost use Rattle.group_rows.specs.Inner.Columns.{are_inside};
ghost use Rattle.group_rows.specs.Inner.Places.{AreMarked, ArePlaces, HaveKey, HaveKeys, key_of, rows_at};
ghost use Rattle.group_rows.specs.Sets.{sets_by};
ghost use Rattle.group_rows.specs.Taken.{KeepsGroups, cells_kept};

use crate::grouping::{Grouping, key_at};
use crate::rows::{Groups, groups_in, is_at};
use crate::runs::{CellRun, take_cells};
use agg_states::AggState;
use array_geom::Grid;
use array_rows::Cells;
use cell_values::{Coord, List, Memory};
use logical_plan::Aggregate;
use std::alloc::Global;
use std::collections::BTreeMap;

/// How many places from the first on have marks and cells in the group at a coordinate. The first has.
fn run_length(
    grouping: &Grouping<'_>,
    at: &Coord,
    grid: &Grid,
    positions: &[u64],
    marks: &[bool],
) -> usize
    requires grid { IsGrid grid.now }
    requires inside { ArePlaces grid.now positions.now }
    requires keyed { HaveKeys grouping.now grid.now positions.now }
    requires each { length marks.now ≡ length positions.now }
    requires some { 0 < length positions.now }
    requires mark { AreMarked (take 1 marks.now) }
    requires key { HaveKey grouping.now grid.now at.now.items (take 1 positions.now) }
    ensures some { 0 < result }
    ensures within { result ≤ length positions.now }
    ensures marked { AreMarked (take result marks.now) }
    ensures same { HaveKey grouping.now grid.now at.now.items (take result positions.now) }
{
    for count in 1..positions.len() {
        if !marks[count] {
            return count;
        }
        if !is_at(&key_at(grouping, &grid.place(positions[count])), at) {
            return count;
        }
    }
    positions.len()
}

/// Takes the cells from the first place on that are in its group, as far as they have marks, and gives how many they are.
fn take_group(
    groups: &mut BTreeMap<Coord, List<AggState>>,
    alloc: Global,
    aggregates: &[Aggregate],
    grouping: &Grouping<'_>,
    grid: &Grid,
    positions: &[u64],
    cells: &Cells,
    marks: &[bool],
    from: usize,
) -> Result<usize, Memory>
    requires grid { IsGrid grid.now }
    requires inside { ArePlaces grid.now positions.now }
    requires keyed { HaveKeys grouping.now grid.now positions.now }
    requires each { length marks.now ≡ length positions.now }
    requires some { 0 < length positions.now }
    requires mark { AreMarked (take 1 marks.now) }
    requires cells { from + length positions.now ≤ length cells.now }
    requires few { length cells.now < 2 ^ 63 }
    requires room { cells_kept groups.old.entries + length positions.now < 2 ^ 63 }
    ensures some { IfOk result (λ count. 0 < count) }
    ensures within { IfOk result (λ count. count ≤ length positions.now) }
    ensures marked { IfOk result (λ count. AreMarked (take count marks.now)) }
    ensures states { IfOk result (λ count. (before : Items Row) → IsRising (before ++ take count (rows_at grid.now positions.now cells.now from))
        → KeepsGroups aggregates.now (sets_by (key_of grouping.now) before) groups.old
        → KeepsGroups aggregates.now (sets_by (key_of grouping.now) (before ++ take count (rows_at grid.now positions.now cells.now from))) groups.new) }
    ensures cells { IfOk result (λ count. cells_kept groups.new.entries ≤ cells_kept groups.old.entries + count) }
{
    let key = key_at(grouping, &grid.place(positions[0]));
    let count = run_length(grouping, &key, grid, positions, marks);
    let (run, _) = positions.split_at(count);
    let run = CellRun::Places(grid, run, cells, from);
    take_cells(groups, alloc, aggregates, &key, &run)?;
    Ok(count)
}

/// Takes the group of the first place, or passes over the cell there if it has no mark. Gives how many places that are.
fn take_next(
    groups: &mut BTreeMap<Coord, List<AggState>>,
    alloc: Global,
    aggregates: &[Aggregate],
    grouping: &Grouping<'_>,
    grid: &Grid,
    positions: &[u64],
    cells: &Cells,
    marks: &[bool],
    from: usize,
) -> Result<usize, Memory>
    requires grid { IsGrid grid.now }
    requires inside { ArePlaces grid.now positions.now }
    requires keyed { HaveKeys grouping.now grid.now positions.now }
    requires each { length marks.now ≡ length positions.now }
    requires some { 0 < length positions.now }
    requires cells { from + length positions.now ≤ length cells.now }
    requires few { length cells.now < 2 ^ 63 }
    requires room { cells_kept groups.old.entries + length positions.now < 2 ^ 63 }
    ensures some { IfOk result (λ count. 0 < count) }
    ensures within { IfOk result (λ count. count ≤ length positions.now) }
    ensures states { IfOk result (λ count. (area : Bounds) (before : Items Row) → are_inside area (rows_at grid.now positions.now cells.now from) ≡ marks.now
        → IsRising (before ++ within area (take count (rows_at grid.now positions.now cells.now from)))
        → KeepsGroups aggregates.now (sets_by (key_of grouping.now) before) groups.old
        → KeepsGroups aggregates.now (sets_by (key_of grouping.now)
        (before ++ within area (take count (rows_at grid.now positions.now cells.now from)))) groups.new) }
    ensures cells { IfOk result (λ count. (area : Bounds) → are_inside area (rows_at grid.now positions.now cells.now from) ≡ marks.now
        → cells_kept groups.new.entries ≤ cells_kept groups.old.entries + length (within area (take count (rows_at grid.now positions.now cells.now from)))) }
    ensures few { IfOk result (λ count. cells_kept groups.new.entries ≤ cells_kept groups.old.entries + count) }
{
    if !marks[0] {
        return Ok(1);
    }
    take_group(
        groups, alloc, aggregates, grouping, grid, positions, cells, marks, from,
    )
}

/// The groups of those cells at places of a grid that have marks. Cells of one group that stand together are taken at once.
pub fn groups_of_places(
    alloc: Global,
    aggregates: &[Aggregate],
    grouping: &Grouping<'_>,
    grid: &Grid,
    positions: &[u64],
    cells: &Cells,
    marks: &[bool],
) -> Result<Groups, Memory>
    requires few { length positions.now < 2 ^ 63 }
    requires grid { IsGrid grid.now }
    requires inside { ArePlaces grid.now positions.now }
    requires keyed { HaveKeys grouping.now grid.now positions.now }
    requires each { length marks.now ≡ length positions.now }
    requires cells { length cells.now ≡ length positions.now }
    requires rising { IsRising (rows_at grid.now positions.now cells.now 0) }
    ensures groups { (area : Bounds) → are_inside area (rows_at grid.now positions.now cells.now 0) ≡ marks.now
        → IfOk result (λ part. AreGroupsOf aggregates.now
        (sets_by (key_of grouping.now) (within area (rows_at grid.now positions.now cells.now 0))) part.groups) }
    ensures cells { (area : Bounds) → are_inside area (rows_at grid.now positions.now cells.now 0) ≡ marks.now
        → IfOk result (λ part. cells_in part.groups ≤ length (within area (rows_at grid.now positions.now cells.now 0))) }
{
    let mut groups = BTreeMap::new(alloc);
    let mut taken = 0;
    'taking: while taken < positions.len() {
        let (_, places_left) = positions.split_at(taken);
        let (_, marks_left) = marks.split_at(taken);
        let count = take_next(
            &mut groups,
            alloc,
            aggregates,
            grouping,
            grid,
            places_left,
            cells,
            marks_left,
            taken,
        )?;
        taken += count;
    }
    groups_in(alloc, groups)
}
