//! Rows of two arrays, put together in row-major order.
ghost use Rattle.std.specs.Prelude.{◌≡◌, ◌+◌, ◌<◌, ◌++◌, [], ◌↔◌, length, take, drop, IsTrue, OnOk, IfOk};
ghost use Rattle.array_rows.specs.Rows.{IsRising, put_all};
ghost use Rattle.chunk_cells.specs.Inner.Merging.{IsMergedOn};

use cell_values::{List, Memory, Row, row_major};
use std::cmp::Ordering;
use std::collections::VecDeque;

/// Moves the first row to the end of the merged ones.
fn move_first(merged: &mut List<Row>, rows: &mut VecDeque<Row>) -> Result<(), Memory>
    ensures merged { OnOk result (merged.new ≡ merged.old ++ take 1 rows.old.items) }
    ensures left { rows.new.items ≡ drop 1 rows.old.items }
{
    if let Some(row) = rows.pop_front() {
        merged.push(row)?;
    }
    Ok(())
}

/// Moves the first row of the two. Where both have one at its place, that of the right is left out.
fn move_next(
    merged: &mut List<Row>,
    left: &mut VecDeque<Row>,
    right: &mut VecDeque<Row>,
) -> Result<(), Memory>
    requires left { 0 < length left.old.items }
    requires right { 0 < length right.old.items }
    ensures merged { OnOk result (IsMergedOn merged.old left.old.items right.old.items merged.new left.new.items right.new.items) }
    ensures fewer { OnOk result (length left.new.items + length right.new.items < length left.old.items + length right.old.items) }
{
    match row_major(&left[0].at, &right[0].at) {
        Ordering::Less => move_first(merged, left),
        Ordering::Greater => move_first(merged, right),
        Ordering::Equal => {
            right.pop_front();
            Ok(())
        }
    }
}

/// Moves all rows to the end of the merged ones.
fn move_all(merged: &mut List<Row>, rows: VecDeque<Row>) -> Result<(), Memory>
    ensures { OnOk result (merged.new ≡ merged.old ++ rows.items) }
{
    let mut rows = rows;
    while let Some(row) = rows.pop_front() {
        merged.push(row)?;
    }
    Ok(())
}

/// Whether both have a row.
fn both_have(left: &VecDeque<Row>, right: &VecDeque<Row>) -> bool
    ensures { IsTrue result ↔ (0 < length left.now.items) × (0 < length right.now.items) }
{
    !left.is_empty() && !right.is_empty()
}

/// The rows of both, taken one by one, and of two at one coordinate the left one.
fn interleave(left: List<Row>, right: List<Row>) -> Result<List<Row>, Memory>
    ensures { IsRising left → IsRising right → IfOk result (λ merged. merged ≡ put_all left right) }
{
    let room = left.len().saturating_add(right.len());
    let mut merged = List::with_capacity(left.allocator(), room)?;
    let mut left = VecDeque::from_vec(left.into_vec());
    let mut right = VecDeque::from_vec(right.into_vec());
    'merging: while both_have(&left, &right) {
        move_next(&mut merged, &mut left, &mut right)?;
    }
    move_all(&mut merged, left)?;
    move_all(&mut merged, right)?;
    Ok(merged)
}

/// Whether all rows of one list come before those of another, by the last and the first one of rising rows.
fn lie_before(left: &[Row], right: &[Row]) -> bool
    ensures { IsTrue result → IsRising left.now → IsRising right.now → left.now ++ right.now ≡ put_all left.now right.now }
{
    if left.is_empty() {
        return true;
    }
    if right.is_empty() {
        return true;
    }
    matches!(
        row_major(&left[left.len() - 1].at, &right[0].at),
        Ordering::Less
    )
}

/// The rows of both, and of two at one coordinate the left one.
pub(crate) fn merge(left: List<Row>, right: List<Row>) -> Result<List<Row>, Memory>
    ensures { IsRising left → IsRising right → IfOk result (λ merged. merged ≡ put_all left right) }
{
    if lie_before(left.as_slice(), right.as_slice()) {
        let mut merged = left;
        merged.append(right)?;
        Ok(merged)
    } else {
        interleave(left, right)
    }
}
