//! The groups of many parts.
ghost use Rattle.std.specs.Prelude.{◌≡◌, ◌^◌, ◌<◌, ◌≤◌, [], ◌∷◌, List as Items, length, take, drop, OnOk, IfOk};
ghost use Rattle.std.specs.Vec.Iter.{into_iter_items};
ghost use Rattle.logical_plan.specs.declared.parts.Aggregate.{Aggregate};
ghost use Rattle.group_rows.specs.Counts.{cells_in, cells_in_all};
ghost use Rattle.group_rows.specs.Grouped.{AreGroupsOf, ArePartsOf};
ghost use Rattle.group_rows.specs.Sets.{Sets, all_sets, AreAllApart};

use crate::rows::groups::Groups;
use crate::rows::merging::merge_two;
use cell_values::{List, Memory};
use std::alloc::Global;
use std::vec::IntoIter;

fn none(alloc: Global) -> Groups
    ensures { result.groups ≡ [] }
{
    Groups {
        groups: List::new(alloc),
    }
}

/// The groups of the next part.
fn next_groups(alloc: Global, parts: &mut IntoIter<Groups>) -> Groups
    requires some { 1 ≤ length (into_iter_items parts.old) }
    ensures left { into_iter_items parts.new ≡ drop 1 (into_iter_items parts.old) }
    ensures groups { result ∷ [] ≡ take 1 (into_iter_items parts.old) }
{
    match parts.next() {
        Some(part) => part,
        None => none(alloc),
    }
}

/// The groups of so many parts, put together half by half.
fn gather(alloc: Global, parts: &mut IntoIter<Groups>, count: usize) -> Result<Groups, Memory>
    requires some { count ≤ length (into_iter_items parts.old) }
    requires room { cells_in_all (into_iter_items parts.old) < 2 ^ 63 }
    ensures left { OnOk result (into_iter_items parts.new ≡ drop count (into_iter_items parts.old)) }
    ensures groups { (gs : Items Aggregate) (sets : Items Sets) → ArePartsOf gs sets (take count (into_iter_items parts.old)) → AreAllApart sets
        → IfOk result (λ all. AreGroupsOf gs (all_sets sets) all.groups) }
    ensures cells { IfOk result (λ all. cells_in all.groups ≤ cells_in_all (take count (into_iter_items parts.old))) }
{
    if count == 0 {
        return Ok(none(alloc));
    }
    if count == 1 {
        return Ok(next_groups(alloc, parts));
    }
    let half = count / 2;
    let left = gather(alloc, parts, half)?;
    let right = gather(alloc, parts, count - half)?;
    merge_two(left, right)
}

/// The groups of all parts, of which no two stand for the same cell.
pub fn merge_all(parts: List<Groups>) -> Result<Groups, Memory>
    requires room { cells_in_all parts < 2 ^ 63 }
    ensures groups { (gs : Items Aggregate) (sets : Items Sets) → ArePartsOf gs sets parts
        → AreAllApart sets → IfOk result (λ all. AreGroupsOf gs (all_sets sets) all.groups) }
    ensures cells { IfOk result (λ all. cells_in all.groups ≤ cells_in_all parts) }
{
    let alloc = parts.allocator();
    let count = parts.len();
    let mut parts = parts.into_vec().into_iter();
    gather(alloc, &mut parts, count)
}
