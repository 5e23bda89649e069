//! Boxes of coordinates.
ghost use Rattle.std.specs.Prelude.{◌≡◌};
ghost use Rattle.array_rows.specs.Boxes.{is_between, is_inside};

use cell_values::{Bounds, Coord};

fn lies_between(lo: &[i64], hi: &[i64], at: &[i64]) -> bool
    ensures { result ≡ is_between lo.now hi.now at.now }
{
    match lo {
        [] => match hi {
            [] => at.is_empty(),
            [_, ..] => false,
        },
        [low, lo @ ..] => match hi {
            [] => false,
            [high, hi @ ..] => match at {
                [] => false,
                [x, at @ ..] => *low <= *x && *x <= *high && lies_between(lo, hi, at),
            },
        },
    }
}

/// Whether a coordinate lies in a box: as many numbers as the corners have, each from the low one to the high one.
pub fn is_in_box(area: &Bounds, at: &Coord) -> bool
    ensures { result ≡ is_inside area.now at.now.items }
{
    lies_between(area.lo.as_slice(), area.hi.as_slice(), at.as_slice())
}
