//! Cells by their places in a grid, put together.
ghost use Rattle.std.specs.Prelude.{◌≡◌, ◌+◌, ◌<◌, ◌≤◌, ◌++◌, [], length, drop, IsTrue, OnOk, IfOk};
ghost use Rattle.std.specs.List.{AllByRecursion};
ghost use Rattle.array_rows.specs.Rows.{IsRising, put_all};
ghost use Rattle.array_geom.specs.Inner.Ranges.{IsGrid};
ghost use Rattle.area_cells.specs.Found.{AreFound, IsFound, found_rows};
ghost use Rattle.area_cells.specs.Inner.Merged.{Goes};

use crate::finding::Found;
use array_geom::Grid;
use cell_values::{List, Memory};
use std::cmp::Ordering;

/// Adds the next cell of the two, and says where they go on. Of two at one place the left one
/// stays.
fn put_next<'a>(
    made: &mut List<Found<'a>>,
    left: &[Found<'a>],
    at_left: usize,
    right: &[Found<'a>],
    at_right: usize,
    grid: &Grid,
) -> Result<(usize, usize), Memory>
    requires grid { IsGrid grid.now }
    requires left { AllByRecursion (IsFound grid.now) left.now }
    requires right { AllByRecursion (IsFound grid.now) right.now }
    requires in_left { at_left < length left.now }
    requires in_right { at_right < length right.now }
    ensures made { IfOk result (λ next. Goes grid.now left.now right.now made.old at_left at_right made.new next.0 next.1) }
    ensures left_within { IfOk result (λ next. next.0 ≤ length left.now) }
    ensures right_within { IfOk result (λ next. next.1 ≤ length right.now) }
    ensures further { IfOk result (λ next. at_left + at_right < next.0 + next.1) }
{
    let _ = grid;
    match left[at_left].position.cmp(&right[at_right].position) {
        Ordering::Less => {
            made.push(left[at_left])?;
            Ok((at_left + 1, at_right))
        }
        Ordering::Greater => {
            made.push(right[at_right])?;
            Ok((at_left, at_right + 1))
        }
        Ordering::Equal => Ok((at_left, at_right + 1)),
    }
}

/// Adds those from an index on.
fn push_rest<'a>(made: &mut List<Found<'a>>, from: &[Found<'a>], start: usize) -> Result<(), Memory>
    requires { start ≤ length from.now }
    ensures { OnOk result (made.new ≡ made.old ++ drop start from.now) }
{
    for k in start..from.len() {
        made.push(from[k])?;
    }
    Ok(())
}

/// The cells of both, one by one, and of two at one place the left one.
fn interleave<'a>(
    left: List<Found<'a>>,
    right: List<Found<'a>>,
    grid: &Grid,
) -> Result<List<Found<'a>>, Memory>
    requires grid { IsGrid grid.now }
    requires left { AllByRecursion (IsFound grid.now) left }
    requires right { AllByRecursion (IsFound grid.now) right }
    requires left_rise { IsRising (found_rows grid.now left) }
    requires right_rise { IsRising (found_rows grid.now right) }
    ensures { IfOk result (AreFound grid.now (put_all (found_rows grid.now left.entry) (found_rows grid.now right.entry))) }
{
    let room = left.len().saturating_add(right.len());
    let mut made = List::with_capacity(left.allocator(), room)?;
    let one = left.as_slice();
    let other = right.as_slice();
    let mut at_left = 0;
    let mut at_right = 0;
    'merging: while at_left < one.len() && at_right < other.len() {
        let (next_left, next_right) = put_next(&mut made, one, at_left, other, at_right, grid)?;
        at_left = next_left;
        at_right = next_right;
    }
    push_rest(&mut made, one, at_left)?;
    push_rest(&mut made, other, at_right)?;
    Ok(made)
}

/// Whether all places of one list come before those of another, by the last and the first one.
fn lie_before(left: &[Found<'_>], right: &[Found<'_>], grid: &Grid) -> bool
    requires grid { IsGrid grid.now }
    requires left { AllByRecursion (IsFound grid.now) left.now }
    requires right { AllByRecursion (IsFound grid.now) right.now }
    requires left_rise { IsRising (found_rows grid.now left.now) }
    requires right_rise { IsRising (found_rows grid.now right.now) }
    ensures { IsTrue result → found_rows grid.now left.now ++ found_rows grid.now right.now ≡ put_all (found_rows grid.now left.now) (found_rows grid.now right.now) }
{
    let _ = grid;
    if left.is_empty() {
        return true;
    }
    if right.is_empty() {
        return true;
    }
    left[left.len() - 1].position < right[0].position
}

/// The cells of both, by their rising places, and of two at one place the left one.
pub(crate) fn merge_found<'a>(
    left: List<Found<'a>>,
    right: List<Found<'a>>,
    grid: &Grid,
) -> Result<List<Found<'a>>, Memory>
    requires grid { IsGrid grid.now }
    requires left { AllByRecursion (IsFound grid.now) left }
    requires right { AllByRecursion (IsFound grid.now) right }
    requires left_rise { IsRising (found_rows grid.now left) }
    requires right_rise { IsRising (found_rows grid.now right) }
    ensures { IfOk result (AreFound grid.now (put_all (found_rows grid.now left.entry) (found_rows grid.now right.entry))) }
{
    if lie_before(left.as_slice(), right.as_slice(), grid) {
        let mut made = left;
        made.append(right)?;
        Ok(made)
    } else {
        interleave(left, right, grid)
    }
}
