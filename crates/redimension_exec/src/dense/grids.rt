//! Boxes that are small enough to have a place for each coordinate.
ghost use Rattle.std.specs.Prelude.{◌≡◌, ◌+◌, ◌≤◌, ◌++◌, true, length, IsTrue, IfSome};
ghost use Rattle.array_rows.specs.Boxes.{by_pairs, is_inside};
ghost use Rattle.array_rows.specs.Rows.{Coordinate};
ghost use Rattle.array_geom.specs.Inner.Ranges.{IsGrid, is_in_grid};
ghost use Rattle.redimension_exec.specs.Inner.Spans.{HaveSpans, span};

use array_geom::{Grid, Lengths};
use cell_values::{Bounds, copy_coord};

/// Adds how long a box is in each dimension, if it has at most so many places.
fn push_spans(out: &mut Lengths, lo: &[i64], hi: &[i64], limit: u64) -> bool
    requires room { length out.old.items + length lo.now ≤ 6 }
    requires some { 1 ≤ limit }
    ensures lengths { IsTrue result → out.new.items ≡ out.old.items ++ by_pairs span lo.now hi.now }
    ensures spans { IsTrue result → HaveSpans lo.now hi.now limit }
{
    match lo {
        [] => hi.is_empty(),
        [l, lo @ ..] => match hi {
            [] => false,
            [h, hi @ ..] => {
                if *h < *l || *l < -4611686018427387904 || 4611686018427387904 < *h {
                    return false;
                }
                let wide = (*h).abs_diff(*l);
                if limit <= wide {
                    return false;
                }
                out.push(wide + 1);
                push_spans(out, lo, hi, limit / (wide + 1))
            }
        },
    }
}

/// A box as a grid, if it has few places enough.
pub(crate) fn grid_between(area: &Bounds) -> Option<Grid>
    ensures grid { IfSome result IsGrid }
    ensures held { IfSome result (λ grid. (c : Coordinate) → is_inside area.now c ≡ true → is_in_grid grid.low.items grid.lengths.items c ≡ true) }
{
    let mut lengths = Lengths::new();
    if push_spans(
        &mut lengths,
        area.lo.as_slice(),
        area.hi.as_slice(),
        16777216,
    ) {
        Some(Grid {
            low: copy_coord(&area.lo),
            lengths,
        })
    } else {
        None
    }
}
