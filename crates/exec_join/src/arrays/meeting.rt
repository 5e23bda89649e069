//! Cells of two arrays side by side, by their places in one grid.
ghost use Rattle.std.specs.Prelude.{◌≡◌, ◌+◌, ◌<◌, ◌≤◌, ◌++◌, ◌∷◌, [], length, IsTrue, OnOk, IfOk};
ghost use Rattle.std.specs.List.{AllByRecursion};
ghost use Rattle.array_rows.specs.Rows.{IsRising};
ghost use Rattle.array_geom.specs.Inner.Ranges.{IsGrid};
ghost use Rattle.area_cells.specs.Found.{IsFound, found_cell, found_rows};
ghost use Rattle.area_cells.specs.Inner.Filled.{IsFilled};
ghost use Rattle.logical_plan.specs.Joins.{cell_beside, join_rows};
ghost use Rattle.exec_join.specs.Inner.Meeting.{Meets};

use crate::beside::cell_beside;
use area_cells::Found;
use array_geom::{Chunk, Grid};
use array_rows::{Cells, Form};
use cell_values::{Cell, ChunkAt, List, Memory, copy_numbers};
use std::cmp::Ordering;

fn cell_of(found: &Found<'_>, grid: &Grid) -> Result<Cell, Memory>
    requires { IsFound grid.now found.now }
    ensures { IfOk result (λ cell. cell ≡ found_cell found.now) }
{
    let _ = grid;
    match found.form {
        Form::Even(rows) => Ok(Cell::Full(rows.row(found.number)?)),
        Form::Mixed(cells) => cells[found.number].copy(),
    }
}

fn push_slowly(
    cells: &mut Cells,
    left: &Found<'_>,
    right: &Found<'_>,
    grid: &Grid,
) -> Result<(), Memory>
    requires left { IsFound grid.now left.now }
    requires right { IsFound grid.now right.now }
    ensures { OnOk result (cells.new ≡ cells.old ++ cell_beside (found_cell left.now) (found_cell right.now) ∷ []) }
{
    let one = cell_of(left, grid)?;
    let other = cell_of(right, grid)?;
    cells.push(cell_beside(one, other)?)
}

/// Adds two cells side by side.
fn push_beside(
    cells: &mut Cells,
    left: &Found<'_>,
    right: &Found<'_>,
    grid: &Grid,
) -> Result<(), Memory>
    requires left { IsFound grid.now left.now }
    requires right { IsFound grid.now right.now }
    ensures { OnOk result (cells.new ≡ cells.old ++ cell_beside (found_cell left.now) (found_cell right.now) ∷ []) }
{
    match left.form {
        Form::Even(a) => match right.form {
            Form::Even(b) => cells.push_both(a, left.number, b, right.number),
            Form::Mixed(_) => push_slowly(cells, left, right, grid),
        },
        Form::Mixed(_) => push_slowly(cells, left, right, grid),
    }
}

/// Looks at the next cell of the two, joins both where they stand at one place, and says where they
/// go on.
fn meet_next(
    made: &mut Chunk,
    left: &[Found<'_>],
    at_left: usize,
    right: &[Found<'_>],
    at_right: usize,
    grid: &Grid,
) -> Result<(usize, usize), Memory>
    requires grid { IsGrid grid.now }
    requires left { AllByRecursion (IsFound grid.now) left.now }
    requires right { AllByRecursion (IsFound grid.now) right.now }
    requires in_left { at_left < length left.now }
    requires in_right { at_right < length right.now }
    ensures made { IfOk result (λ next. Meets grid.now left.now right.now made.old at_left at_right made.new next.0 next.1) }
    ensures left_within { IfOk result (λ next. next.0 ≤ length left.now) }
    ensures right_within { IfOk result (λ next. next.1 ≤ length right.now) }
    ensures further { IfOk result (λ next. at_left + at_right < next.0 + next.1) }
{
    match left[at_left].position.cmp(&right[at_right].position) {
        Ordering::Less => Ok((at_left + 1, at_right)),
        Ordering::Greater => Ok((at_left, at_right + 1)),
        Ordering::Equal => {
            made.positions.push(left[at_left].position)?;
            push_beside(&mut made.cells, &left[at_left], &right[at_right], grid)?;
            Ok((at_left + 1, at_right + 1))
        }
    }
}

/// The chunk of the cells where both have one, side by side.
pub(crate) fn meet(
    number: &ChunkAt,
    grid: &Grid,
    left: List<Found<'_>>,
    right: List<Found<'_>>,
) -> Result<Chunk, Memory>
    requires grid { IsGrid grid.now }
    requires left { AllByRecursion (IsFound grid.now) left }
    requires right { AllByRecursion (IsFound grid.now) right }
    requires left_rise { IsRising (found_rows grid.now left) }
    requires right_rise { IsRising (found_rows grid.now right) }
    ensures number { IfOk result (λ made. made.at ≡ number.now) }
    ensures filled { IfOk result (IsFilled grid.now.low.items grid.now.lengths.items (join_rows (found_rows grid.now left.entry) (found_rows grid.now right.entry))) }
{
    let mut made = Chunk {
        at: copy_numbers(number),
        positions: left.another(),
        cells: Cells::new(left.allocator()),
    };
    let one = left.as_slice();
    let other = right.as_slice();
    let mut at_left = 0;
    let mut at_right = 0;
    'meeting: while at_left < one.len() && at_right < other.len() {
        let (next_left, next_right) = meet_next(&mut made, one, at_left, other, at_right, grid)?;
        at_left = next_left;
        at_right = next_right;
    }
    Ok(made)
}
