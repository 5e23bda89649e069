//! Groups of the cells of rows.
ghost use Rattle.std.specs.Prelude.{◌≡◌, ◌+◌, ◌^◌, ◌<◌, ◌≤◌, ◌++◌, List as Items, length, take, true, IfOk};
ghost use Rattle.std.specs.Ordering.{is_eq};
ghost use Rattle.cell_values.specs.declared.datum.Row.{Row};
ghost use Rattle.array_rows.specs.Rows.{Coordinate, IsRising, row_major};
ghost use Rattle.group_rows.specs.Counts.{cells_in};
ghost use Rattle.group_rows.specs.Grouped.{AreGroupsOf};
ghost use Rattle.group_rows.specs.Sets.{one_set, sets_by, are_at, AreKeys};
ghost use Rattle.group_rows.specs.Taken.{KeepsGroups, cells_kept};

use crate::rows::groups::{Groups, alone};
use crate::rows::states::states_of;
use crate::rows::tree::{groups_in, take_rows};
use agg_states::AggState;
use cell_values::{Coord, List, Memory, Row, row_major};
use logical_plan::Aggregate;
use std::alloc::Global;
use std::collections::BTreeMap;

/// All cells in one group at a coordinate, also where there is no cell.
pub fn one_group(
    alloc: Global,
    aggregates: &[Aggregate],
    at: &Coord,
    rows: &[Row],
) -> Result<Groups, Memory>
    requires few { length rows.now < 2 ^ 63 }
    requires rising { IsRising rows.now }
    ensures groups { IfOk result (λ groups. AreGroupsOf aggregates.now (one_set at.now.items rows.now) groups.groups) }
    ensures cells { IfOk result (λ groups. cells_in groups.groups ≤ length rows.now) }
{
    let states = states_of(alloc, aggregates, rows)?;
    alone(alloc, at, states)
}

/// Whether a coordinate is this one.
pub(crate) fn is_at(key: &Coord, at: &Coord) -> bool
    ensures { result ≡ is_eq (row_major key.now.items at.now.items) }
{
    row_major(key, at).is_eq()
}

/// How many coordinates from the first on are this one.
fn run_length(at: &Coord, keys: &[Coord]) -> usize
    ensures within { result ≤ length keys.now }
    ensures same { are_at at.now.items (take result keys.now) ≡ true }
{
    let mut count = 0;
    for key in keys {
        if !is_at(key, at) {
            return count;
        }
        count += 1;
    }
    count
}

/// Takes the first cells, as many as are in one group, and gives how many they are.
fn take_run(
    groups: &mut BTreeMap<Coord, List<AggState>>,
    alloc: Global,
    aggregates: &[Aggregate],
    keys: &[Coord],
    rows: &[Row],
) -> Result<usize, Memory>
    requires some { 0 < length keys.now }
    requires each { length keys.now ≡ length rows.now }
    requires room { cells_kept groups.old.entries + length rows.now < 2 ^ 63 }
    ensures some { IfOk result (λ count. 0 < count) }
    ensures within { IfOk result (λ count. count ≤ length rows.now) }
    ensures states { IfOk result (λ count. (group : Coordinate → Coordinate) (before : Items Row) → AreKeys group keys.now rows.now
        → IsRising (before ++ rows.now) → KeepsGroups aggregates.now (sets_by group before) groups.old
        → KeepsGroups aggregates.now (sets_by group (before ++ take count rows.now)) groups.new) }
    ensures cells { IfOk result (λ count. cells_kept groups.new.entries ≤ cells_kept groups.old.entries + count) }
{
    let first = &keys[0];
    let (_, others) = keys.split_at(1);
    let count = run_length(first, others) + 1;
    let (run, _) = rows.split_at(count);
    take_rows(groups, alloc, aggregates, first, run)?;
    Ok(count)
}

/// The groups of cells, each in the group whose coordinate stands at its place in `keys`. Cells of one group that stand together
/// are taken one after the other.
pub fn groups_of(
    alloc: Global,
    aggregates: &[Aggregate],
    keys: &[Coord],
    rows: &[Row],
) -> Result<Groups, Memory>
    requires few { length rows.now < 2 ^ 63 }
    requires each { length keys.now ≡ length rows.now }
    requires rising { IsRising rows.now }
    ensures groups { (group : Coordinate → Coordinate) → AreKeys group keys.now rows.now
        → IfOk result (λ groups. AreGroupsOf aggregates.now (sets_by group rows.now) groups.groups) }
    ensures cells { IfOk result (λ groups. cells_in groups.groups ≤ length rows.now) }
{
    let mut groups = BTreeMap::new(alloc);
    let mut taken = 0;
    'taking: while taken < keys.len() {
        let (_, keys_left) = keys.split_at(taken);
        let (_, rows_left) = rows.split_at(taken);
        let count = take_run(&mut groups, alloc, aggregates, keys_left, rows_left)?;
        taken += count;
    }
    groups_in(alloc, groups)
}
