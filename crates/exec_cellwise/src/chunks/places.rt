//! Coordinates of places that mostly come one after the other in a row of a grid.
ghost use Rattle.std.specs.Prelude.{◌≡◌, ◌<◌, ◌≤◌, ◌^◌, true, length, IsTrue, IfSome};
ghost use Rattle.array_geom.specs.Geometry.{coordinate_in, volume};
ghost use Rattle.array_geom.specs.Inner.Ranges.{IsGrid, is_in_grid};
ghost use Rattle.exec_cellwise.specs.Inner.Places.{IsLast};

use array_geom::Grid;
use cell_values::Coord;

/// The last number of a coordinate this far on in its row, where the row goes on so far.
fn number_ahead(low: &[i64], lengths: &[u64], at: &[i64], steps: u64) -> Option<i64>
    requires grid { IsTrue (is_in_grid low.now lengths.now at.now) }
    requires steps { steps ≤ 2 ^ 48 }
    ensures { IfSome result (IsLast low.now lengths.now at.now steps) }
{
    if at.is_empty() {
        return None;
    }
    let last = at.len() - 1;
    match at[last].checked_add(steps as i64) {
        Some(number) => {
            if number.abs_diff(low[last]) < lengths[last] {
                Some(number)
            } else {
                None
            }
        }
        None => None,
    }
}

/// Moves a coordinate from its place to that of another.
pub(crate) fn move_to(grid: &Grid, at: &mut Coord, from: u64, place: u64)
    requires grid { IsGrid grid.now }
    requires from { from < volume grid.now.lengths.items }
    requires place { place < volume grid.now.lengths.items }
    requires at { at.old.items ≡ coordinate_in grid.now.low.items grid.now.lengths.items from }
    ensures { at.new.items ≡ coordinate_in grid.now.low.items grid.now.lengths.items place }
{
    if from <= place {
        let low = grid.low.as_slice();
        let lengths = grid.lengths.as_slice();
        if let Some(number) = number_ahead(low, lengths, at.as_slice(), place - from) {
            at.pop();
            at.push(number);
            return;
        }
    }
    *at = grid.place(place);
}
