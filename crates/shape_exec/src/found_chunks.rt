//! Chunks of cells that were found, by their places in a grid.
ghost use Rattle.std.specs.Prelude.{◌≡◌, ◌+◌, ◌<◌, ◌≤◌, ◌++◌, ◌∷◌, [], List as Items, length, OnOk, IfOk};
ghost use Rattle.std.specs.List.{AllByRecursion};
ghost use Rattle.cell_values.specs.declared.datum.Row.{Row as Placed};
ghost use Rattle.array_rows.specs.Rows.{IsRising, put_all};
ghost use Rattle.array_geom.specs.Inner.Ranges.{IsGrid};
ghost use Rattle.area_cells.specs.Found.{IsFound, found_cell, found_row, found_rows};
ghost use Rattle.area_cells.specs.Inner.Filled.{IsFilled};
ghost use Rattle.shape_exec.specs.Inner.Merged.{Puts, PutsRest};

use area_cells::Found;
use array_geom::{Chunk, Grid};
use array_rows::{Cells, Form};
use cell_values::{ChunkAt, List, Memory, copy_numbers};
use std::cmp::Ordering;

/// Adds a cell that was found.
fn push_cell(cells: &mut Cells, found: &Found<'_>, grid: &Grid) -> Result<(), Memory>
    requires { IsFound grid.now found.now }
    ensures { OnOk result (cells.new ≡ cells.old ++ found_cell found.now ∷ []) }
{
    let _ = grid;
    match found.form {
        Form::Even(rows) => cells.push_row(rows, found.number),
        Form::Mixed(held) => cells.push(held[found.number].copy()?),
    }
}

/// Adds a cell that was found at its place.
fn push_found(chunk: &mut Chunk, found: &Found<'_>, grid: &Grid) -> Result<(), Memory>
    requires { IsFound grid.now found.now }
    ensures number { OnOk result (chunk.new.at ≡ chunk.old.at) }
    ensures filled { OnOk result ((rows : Items Placed) → IsFilled grid.now.low.items grid.now.lengths.items rows chunk.old
        → IsFilled grid.now.low.items grid.now.lengths.items (rows ++ found_row grid.now found.now ∷ []) chunk.new) }
{
    chunk.positions.push(found.position)?;
    push_cell(&mut chunk.cells, found, grid)
}

/// Adds the next cell of the two, and says where they go on. Of two at one place the left one stays.
fn put_next(
    chunk: &mut Chunk,
    left: &[Found<'_>],
    at_left: usize,
    right: &[Found<'_>],
    at_right: usize,
    grid: &Grid,
) -> Result<(usize, usize), Memory>
    requires grid { IsGrid grid.now }
    requires left { AllByRecursion (IsFound grid.now) left.now }
    requires right { AllByRecursion (IsFound grid.now) right.now }
    requires in_left { at_left < length left.now }
    requires in_right { at_right < length right.now }
    ensures number { OnOk result (chunk.new.at ≡ chunk.old.at) }
    ensures made { IfOk result (λ next. Puts grid.now left.now right.now chunk.old at_left at_right chunk.new next.0 next.1) }
    ensures left_within { IfOk result (λ next. next.0 ≤ length left.now) }
    ensures right_within { IfOk result (λ next. next.1 ≤ length right.now) }
    ensures further { IfOk result (λ next. at_left + at_right < next.0 + next.1) }
{
    let one = left[at_left];
    let other = right[at_right];
    match one.position.cmp(&other.position) {
        Ordering::Less => {
            push_found(chunk, &one, grid)?;
            Ok((at_left + 1, at_right))
        }
        Ordering::Greater => {
            push_found(chunk, &other, grid)?;
            Ok((at_left, at_right + 1))
        }
        Ordering::Equal => Ok((at_left, at_right + 1)),
    }
}

/// Adds those from an index on.
fn push_rest(chunk: &mut Chunk, from: &[Found<'_>], start: usize, grid: &Grid) -> Result<(), Memory>
    requires found { AllByRecursion (IsFound grid.now) from.now }
    requires within { start ≤ length from.now }
    ensures number { OnOk result (chunk.new.at ≡ chunk.old.at) }
    ensures filled { OnOk result (PutsRest grid.now from.now start chunk.old chunk.new) }
{
    for k in start..from.len() {
        push_found(chunk, &from[k], grid)?;
    }
    Ok(())
}

/// The chunk of this number with the cells of both that were found in its grid, and of two at one place the left one.
pub(crate) fn chunk_of_both_found(
    number: &ChunkAt,
    grid: &Grid,
    left: List<Found<'_>>,
    right: List<Found<'_>>,
) -> Result<Chunk, Memory>
    requires grid { IsGrid grid.now }
    requires left { AllByRecursion (IsFound grid.now) left }
    requires right { AllByRecursion (IsFound grid.now) right }
    requires left_rise { IsRising (found_rows grid.now left) }
    requires right_rise { IsRising (found_rows grid.now right) }
    ensures number { IfOk result (λ chunk. chunk.at ≡ number.now) }
    ensures filled { IfOk result (IsFilled grid.now.low.items grid.now.lengths.items (put_all (found_rows grid.now left.entry) (found_rows grid.now right.entry))) }
{
    let room = left.len().max(right.len());
    let positions = List::with_capacity(left.allocator(), room)?;
    let mut chunk = Chunk {
        at: copy_numbers(number),
        positions,
        cells: Cells::new(left.allocator()),
    };
    let one = left.as_slice();
    let other = right.as_slice();
    let mut at_left = 0;
    let mut at_right = 0;
    'merging: while at_left < one.len() && at_right < other.len() {
        let (next_left, next_right) = put_next(&mut chunk, one, at_left, other, at_right, grid)?;
        at_left = next_left;
        at_right = next_right;
    }
    push_rest(&mut chunk, one, at_left, grid)?;
    push_rest(&mut chunk, other, at_right, grid)?;
    Ok(chunk)
}
