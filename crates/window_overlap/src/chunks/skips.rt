//! Rows outside a box, left out many at a time.
ghost use Rattle.std.specs.Prelude.{◌≡◌, ◌<◌, ◌≤◌, pos, ◌+ℤ◌, ◌<ℤ◌, [], ◌∷◌, length, take, IsTrue, IfSome};
ghost use Rattle.std.specs.List.{prefix_len};
ghost use Rattle.std.specs.Ordering.{is_lt};
ghost use Rattle.array_rows.specs.Boxes.{is_inside, within};
ghost use Rattle.array_rows.specs.Rows.{row_major, IsRising};
ghost use Rattle.window_overlap.specs.Inner.Skips.{AreBefore, Follows, begins_outside};

use array_rows::is_in_box;
use cell_values::{Bounds, Coord, Row, coord_of};

/// A coordinate with a number before its own.
fn behind(first: i64, rest: &Coord) -> Coord
    requires { length rest.now.items < 6 }
    ensures { result.items ≡ first ∷ rest.now.items }
{
    let mut at = coord_of(rest.as_slice());
    at.insert(0, first);
    at
}

/// The next number of a dimension.
fn next_number(number: i64, high: i64) -> i64
    requires { number <ℤ high }
    ensures { result ≡ number +ℤ pos 1 }
{
    number + 1
}

/// The first coordinate of a box that does not come before another one, if there is one.
fn following(low: &[i64], high: &[i64], at: &[i64]) -> Option<Coord>
    requires { length low.now ≤ 6 }
    ensures follows { Follows low.now high.now at.now result }
    ensures sized { IfSome result (λ next. length next.items ≡ length low.now) }
{
    match low {
        [] => Some(Coord::new()),
        [first_low, low_rest @ ..] => match high {
            [] => None,
            [first_high, high_rest @ ..] => match at {
                [] => Some(coord_of(low)),
                [first, rest @ ..] => {
                    if *first < *first_low {
                        return Some(coord_of(low));
                    }
                    if *first_high < *first {
                        return None;
                    }
                    match following(low_rest, high_rest, rest) {
                        Some(next) => Some(behind(*first, &next)),
                        None if *first < *first_high => {
                            Some(behind(next_number(*first, *first_high), &coord_of(low_rest)))
                        }
                        None => None,
                    }
                }
            },
        },
    }
}

fn comes_before(row: &Row, at: &Coord) -> bool
    ensures { result ≡ is_lt (row_major row.now.at.items at.now.items) }
{
    row.at.as_slice().cmp(at.as_slice()).is_lt()
}

/// How many of the rows come before a coordinate.
fn count_before(rows: &[Row], at: &Coord) -> usize
    requires { IsRising rows.now }
    ensures within { result ≤ length rows.now }
    ensures before { AreBefore at.now.items (take result rows.now) }
{
    let mut start = 0;
    let mut end = rows.len();
    while start < end {
        let middle = start + (end - start) / 2;
        if comes_before(&rows[middle], at) {
            start = middle + 1;
        } else {
            end = middle;
        }
    }
    start
}

/// How many rows at the beginning lie in a box.
pub(crate) fn count_inside(area: &Bounds, rows: &[Row]) -> usize
    ensures within { result ≤ length rows.now }
    ensures inside { result ≡ prefix_len (λ row. is_inside area.now row.at.items) rows.now }
{
    rows.iter()
        .take_while(|row| is_in_box(area, &row.at))
        .count()
}

/// How many rows at the beginning can be left out, as they lie outside a box.
pub(crate) fn count_outside(area: &Bounds, rows: &[Row]) -> usize
    requires few { length area.now.lo.items ≤ 6 }
    requires rising { IsRising rows.now }
    requires outside { IsTrue (begins_outside area.now rows.now) }
    ensures within { result ≤ length rows.now }
    ensures some { 0 < length rows.now → 0 < result }
    ensures outside { within area.now (take result rows.now) ≡ [] }
{
    match rows {
        [] => 0,
        [first, later @ ..] => {
            match following(area.lo.as_slice(), area.hi.as_slice(), first.at.as_slice()) {
                Some(next) => 1 + count_before(later, &next),
                None => rows.len(),
            }
        }
    }
}
