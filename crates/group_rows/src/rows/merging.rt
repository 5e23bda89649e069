//! Groups of two parts, put together.
ghost use Rattle.std.specs.Prelude.{◌≡◌, ◌+◌, ◌^◌, ◌<◌, ◌≤◌, ◌++◌, ◌∷◌, [], ◌↔◌, List as Items, length, take, drop, IsTrue, OnOk, IfOk};
ghost use Rattle.logical_plan.specs.declared.parts.Aggregate.{Aggregate};
ghost use Rattle.group_rows.specs.Counts.{cells_of, cells_in};
ghost use Rattle.group_rows.specs.Grouped.{AreGroupsOf, AreInOrder};
ghost use Rattle.group_rows.specs.Inner.Merged.{AreBothOf, AreMerged, IsMove, IsSamePlace};
ghost use Rattle.group_rows.specs.Sets.{Sets, both_sets, AreApartSets};

use crate::rows::groups::{Group, Groups};
use agg_states::AggState;
use cell_values::{List, Memory, row_major};
use std::cmp::Ordering;
use std::collections::VecDeque;

/// Each state united with the one at its place.
fn merge_states(left: List<AggState>, right: List<AggState>) -> Result<List<AggState>, Memory>
    requires room { cells_of left + cells_of right < 2 ^ 63 }
    ensures states { IfOk result (AreBothOf left right) }
    ensures cells { IfOk result (λ states. cells_of states ≤ cells_of left + cells_of right) }
{
    let mut left = left;
    let mut right = right;
    match left.pop() {
        None => Ok(left),
        Some(state) => match right.pop() {
            None => Ok(right),
            Some(other) => {
                let united = state.merge(other);
                let mut states = merge_states(left, right)?;
                states.push(united)?;
                Ok(states)
            }
        },
    }
}

fn merge_group(left: Group, right: Group) -> Result<Group, Memory>
    requires room { cells_of left.states + cells_of right.states < 2 ^ 63 }
    ensures at { IfOk result (λ group. group.at ≡ left.at) }
    ensures states { IfOk result (λ group. AreBothOf left.states right.states group.states) }
    ensures cells { IfOk result (λ group. cells_of group.states ≤ cells_of left.states + cells_of right.states) }
{
    let states = merge_states(left.states, right.states)?;
    Ok(Group {
        at: left.at,
        states,
    })
}

/// Moves the first group to the end of the merged ones.
fn move_first(merged: &mut List<Group>, groups: &mut VecDeque<Group>) -> Result<(), Memory>
    ensures merged { OnOk result (merged.new ≡ merged.old ++ take 1 groups.old.items) }
    ensures left { groups.new.items ≡ drop 1 groups.old.items }
{
    if let Some(group) = groups.pop_front() {
        merged.push(group)?;
    }
    Ok(())
}

/// Unites the first groups of the two, which have one coordinate, at the end of the merged ones.
fn move_both(
    merged: &mut List<Group>,
    left: &mut VecDeque<Group>,
    right: &mut VecDeque<Group>,
) -> Result<(), Memory>
    requires room { cells_in left.old.items + cells_in right.old.items < 2 ^ 63 }
    requires left { 0 < length left.old.items }
    requires right { 0 < length right.old.items }
    requires same { IsSamePlace left.old.items right.old.items }
    ensures moved { OnOk result (IsMove merged.old left.old.items right.old.items merged.new left.new.items right.new.items) }
    ensures fewer { OnOk result (length left.new.items + length right.new.items < length left.old.items + length right.old.items) }
    ensures cells { OnOk result (cells_in merged.new + (cells_in left.new.items + cells_in right.new.items)
        ≤ cells_in merged.old + (cells_in left.old.items + cells_in right.old.items)) }
{
    if let Some(group) = left.pop_front() {
        if let Some(other) = right.pop_front() {
            merged.push(merge_group(group, other)?)?;
        }
    }
    Ok(())
}

/// Moves the first group of the two, or both where they have one coordinate.
fn move_next(
    merged: &mut List<Group>,
    left: &mut VecDeque<Group>,
    right: &mut VecDeque<Group>,
) -> Result<(), Memory>
    requires room { cells_in left.old.items + cells_in right.old.items < 2 ^ 63 }
    requires left { 0 < length left.old.items }
    requires right { 0 < length right.old.items }
    ensures moved { OnOk result (IsMove merged.old left.old.items right.old.items merged.new left.new.items right.new.items) }
    ensures fewer { OnOk result (length left.new.items + length right.new.items < length left.old.items + length right.old.items) }
    ensures cells { OnOk result (cells_in merged.new + (cells_in left.new.items + cells_in right.new.items)
        ≤ cells_in merged.old + (cells_in left.old.items + cells_in right.old.items)) }
{
    match row_major(&left[0].at, &right[0].at) {
        Ordering::Less => move_first(merged, left),
        Ordering::Greater => move_first(merged, right),
        Ordering::Equal => move_both(merged, left, right),
    }
}

/// Moves all groups to the end of the merged ones.
fn move_all(merged: &mut List<Group>, groups: VecDeque<Group>) -> Result<(), Memory>
    ensures { OnOk result (merged.new ≡ merged.old ++ groups.items) }
{
    let mut groups = groups;
    while let Some(group) = groups.pop_front() {
        merged.push(group)?;
    }
    Ok(())
}

/// Whether both have a group.
fn both_have(left: &VecDeque<Group>, right: &VecDeque<Group>) -> bool
    ensures { IsTrue result ↔ (0 < length left.now.items) × (0 < length right.now.items) }
{
    !left.is_empty() && !right.is_empty()
}

/// The groups of both, as long as both have some.
fn merge_lists(left: List<Group>, right: List<Group>) -> Result<List<Group>, Memory>
    requires room { cells_in left + cells_in right < 2 ^ 63 }
    ensures merged { AreInOrder left → AreInOrder right → IfOk result (AreMerged left right) }
    ensures cells { IfOk result (λ merged. cells_in merged ≤ cells_in left + cells_in right) }
{
    let mut merged = left.another();
    let mut left = VecDeque::from_vec(left.into_vec());
    let mut right = VecDeque::from_vec(right.into_vec());
    'merging: while both_have(&left, &right) {
        move_next(&mut merged, &mut left, &mut right)?;
    }
    move_all(&mut merged, left)?;
    move_all(&mut merged, right)?;
    Ok(merged)
}

/// The groups of two parts, of which none stands for a cell of the other.
pub fn merge_two(left: Groups, right: Groups) -> Result<Groups, Memory>
    requires room { cells_in left.groups + cells_in right.groups < 2 ^ 63 }
    ensures groups { (gs : Items Aggregate) (own other : Sets) → AreGroupsOf gs own left.groups → AreGroupsOf gs other right.groups → AreApartSets own other
        → IfOk result (λ merged. AreGroupsOf gs (both_sets own other) merged.groups) }
    ensures cells { IfOk result (λ merged. cells_in merged.groups ≤ cells_in left.groups + cells_in right.groups) }
{
    Ok(Groups {
        groups: merge_lists(left.groups, right.groups)?,
    })
}
