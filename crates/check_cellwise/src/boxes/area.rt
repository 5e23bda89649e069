//! Boxes by their bounds.
ghost use Rattle.std.specs.Prelude.{◌≡◌, ◌+◌, ◌*◌, ◌≤◌, ◌++◌, length};
ghost use Rattle.array_rows.specs.Boxes.{by_pairs};
ghost use Rattle.check_cellwise.specs.Boxes.{box_of, high_bound, low_bound};

use afl_trees::Tree;
use cell_values::{Bounds, Coord, Dimension};
use check_rules::number_in;

fn low_bound(dimension: &Dimension, bound: &Tree) -> i64
    ensures { result ≡ low_bound dimension.now bound.now }
{
    number_in(bound).unwrap_or(dimension.lo)
}

fn high_bound(dimension: &Dimension, bound: &Tree) -> i64
    ensures { result ≡ high_bound dimension.now bound.now }
{
    number_in(bound).unwrap_or(dimension.hi)
}

/// Adds the low bound of each dimension.
fn push_lows(at: &mut Coord, dimensions: &[Dimension], bounds: &[Tree])
    requires { length at.old.items + length dimensions.now ≤ 6 }
    ensures { at.new.items ≡ at.old.items ++ by_pairs low_bound dimensions.now bounds.now }
{
    match dimensions {
        [] => {}
        [dimension, dimensions @ ..] => match bounds {
            [] => {}
            [bound, bounds @ ..] => {
                at.push(low_bound(dimension, bound));
                push_lows(at, dimensions, bounds);
            }
        },
    }
}

/// Adds the high bound of each dimension.
fn push_highs(at: &mut Coord, dimensions: &[Dimension], bounds: &[Tree])
    requires { length at.old.items + length dimensions.now ≤ 6 }
    ensures { at.new.items ≡ at.old.items ++ by_pairs high_bound dimensions.now bounds.now }
{
    match dimensions {
        [] => {}
        [dimension, dimensions @ ..] => match bounds {
            [] => {}
            [bound, bounds @ ..] => {
                at.push(high_bound(dimension, bound));
                push_highs(at, dimensions, bounds);
            }
        },
    }
}

/// The box of a low bound for each dimension, and behind them a high one for each.
pub(crate) fn box_of(dimensions: &[Dimension], bounds: &[Tree]) -> Bounds
    requires few { length dimensions.now ≤ 6 }
    requires whole { length bounds.now ≡ 2 * length dimensions.now }
    ensures { result ≡ box_of dimensions.now bounds.now }
{
    let mut lo = Coord::new();
    push_lows(&mut lo, dimensions, bounds);
    let mut hi = Coord::new();
    push_highs(&mut hi, dimensions, &bounds[dimensions.len()..]);
    Bounds { lo, hi }
}
