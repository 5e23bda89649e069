//! Groups whose states stand by the places of a grid.
ghost use Rattle.std.specs.Prelude.{◌≡◌, ◌+◌, ◌<◌, ◌≤◌, [], List as Items, length, slice_index_or, IfOk, OnOk};
ghost use Rattle.std.specs.List.{AllByRecursion, AllZip};
ghost use Rattle.cell_values.specs.declared.datum.Row.{Row as Placed};
ghost use Rattle.array_rows.specs.Rows.{IsRising};
ghost use Rattle.array_geom.specs.Geometry.{volume};
ghost use Rattle.array_geom.specs.Inner.Ranges.{IsGrid};
ghost use Rattle.group_rows.specs.Counts.{cells_in};
ghost use Rattle.group_rows.specs.Grouped.{AreGroupsOf, AreStatesOf};
ghost use Rattle.group_rows.specs.Inner.Places.{place_of};
ghost use Rattle.logical_plan.specs.Redimension.{landed_at};
ghost use Rattle.redimension_exec.specs.Inner.Dense.{AreGroupsUpTo, AreMarks, IsColumn, landed_there, no_cells};
ghost use Rattle.redimension_exec.specs.Inner.Grouping.{landed_sets};

use agg_states::AggState;
use array_geom::Grid;
use cell_values::{List, Memory};
use group_rows::{Group, Groups};
use logical_plan::Aggregate;
use std::alloc::Global;

/// At which places of a grid some cell lands.
fn marks_of(alloc: Global, to: &Grid, targets: &[u64]) -> Result<List<bool>, Memory>
    requires grid { IsGrid to.now }
    requires below { AllByRecursion (λ t. t < volume to.now.lengths.items) targets.now }
    ensures { IfOk result (AreMarks to.now targets.now) }
{
    let count = to.volume() as usize;
    let mut marks = List::from_vec(Vec::from_elem(alloc, false, count)?);
    for k in 0..targets.len() {
        marks.set(targets[k] as usize, true);
    }
    Ok(marks)
}

/// The state at a place.
fn state_at(states: &List<AggState>, place: usize) -> Result<AggState, Memory>
    requires { place < length states.now }
    ensures { IfOk result (λ state. state ≡ slice_index_or states.now place no_cells) }
{
    states[place].copy()
}

/// The states of all aggregates at a place.
fn states_at(
    alloc: Global,
    aggregates: &[Aggregate],
    to: &Grid,
    targets: &[u64],
    columns: &[List<AggState>],
    place: usize,
) -> Result<List<AggState>, Memory>
    requires inside { place < volume to.now.lengths.items }
    requires long { AllByRecursion (λ states. length states ≡ volume to.now.lengths.items) columns.now }
    ensures { IfOk result (λ states. (rows : Items Placed)
        → AllZip (λ g column. IsColumn g to.now (landed_there to.now targets.now rows) column) aggregates.now columns.now
        → AreStatesOf aggregates.now (landed_at (landed_there to.now targets.now rows) (place_of to.now place)) states) }
{
    let _ = aggregates;
    let _ = to;
    let _ = targets;
    let mut states = List::with_capacity(alloc, columns.len())?;
    for k in 0..columns.len() {
        states.push(state_at(&columns[k], place)?)?;
    }
    Ok(states)
}

/// Adds the group at a place, if some cell lands there.
fn push_group(
    groups: &mut List<Group>,
    aggregates: &[Aggregate],
    to: &Grid,
    targets: &[u64],
    columns: &[List<AggState>],
    marks: &[bool],
    place: usize,
) -> Result<(), Memory>
    requires grid { IsGrid to.now }
    requires inside { place < volume to.now.lengths.items }
    requires below { AllByRecursion (λ t. t < volume to.now.lengths.items) targets.now }
    requires long { AllByRecursion (λ states. length states ≡ volume to.now.lengths.items) columns.now }
    requires marks { AreMarks to.now targets.now marks.now }
    ensures { OnOk result ((rows : Items Placed) → IsRising rows → length targets.now ≡ length rows
        → AllZip (λ g column. IsColumn g to.now (landed_there to.now targets.now rows) column) aggregates.now columns.now
        → AreGroupsUpTo aggregates.now to.now targets.now rows place groups.old
        → AreGroupsUpTo aggregates.now to.now targets.now rows (place + 1) groups.new) }
{
    if marks[place] {
        let at = to.place(place as u64);
        let states = states_at(groups.allocator(), aggregates, to, targets, columns, place)?;
        groups.push(Group { at, states })?;
    }
    Ok(())
}

/// The groups at all places at which some cell lands.
pub(crate) fn groups_of_columns(
    alloc: Global,
    aggregates: &[Aggregate],
    to: &Grid,
    targets: &[u64],
    columns: &[List<AggState>],
) -> Result<Groups, Memory>
    requires grid { IsGrid to.now }
    requires below { AllByRecursion (λ t. t < volume to.now.lengths.items) targets.now }
    requires long { AllByRecursion (λ states. length states ≡ volume to.now.lengths.items) columns.now }
    ensures groups { (rows : Items Placed) → IsRising rows → length targets.now ≡ length rows
        → AllZip (λ g column. IsColumn g to.now (landed_there to.now targets.now rows) column) aggregates.now columns.now
        → IfOk result (λ made. AreGroupsOf aggregates.now (landed_sets (landed_there to.now targets.now rows)) made.groups) }
    ensures cells { (rows : Items Placed) → IsRising rows → length targets.now ≡ length rows
        → AllZip (λ g column. IsColumn g to.now (landed_there to.now targets.now rows) column) aggregates.now columns.now
        → IfOk result (λ made. cells_in made.groups ≤ length rows) }
{
    let marks = marks_of(alloc, to, targets)?;
    let count = to.volume() as usize;
    let mut groups = List::new(alloc);
    for place in 0..count {
        push_group(
            &mut groups,
            aggregates,
            to,
            targets,
            columns,
            marks.as_slice(),
            place,
        )?;
    }
    Ok(Groups { groups })
}
