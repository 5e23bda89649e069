//! The corners of windows.
ghost use Rattle.std.specs.Prelude.{◌≡◌, ◌+◌, ◌^◌, ◌≤◌, ◌++◌, pos, ◌+ℤ◌, ◌-ℤ◌, length};
ghost use Rattle.std.specs.Int.{w64, saturate_signed};
ghost use Rattle.array_geom.specs.Inner.Ranges.{IsLow, AreLow};
ghost use Rattle.array_rows.specs.Boxes.{by_pairs};
ghost use Rattle.logical_plan.specs.Groups.{window};
ghost use Rattle.window_overlap.specs.Reaches.{AreShort};
ghost use Rattle.window_overlap.specs.Inner.Reached.{reached};

use cell_values::{Bounds, Coord};
use logical_plan::Reach;

/// The first number that a window reaches.
fn low_of(number: i64, before: u64) -> i64
    requires low { IsLow number }
    requires short { before ≤ 2 ^ 48 }
    ensures { result ≡ number -ℤ pos before }
{
    number - before as i64
}

/// The last number that a window reaches.
fn high_of(number: i64, after: u64) -> i64
    requires low { IsLow number }
    requires short { after ≤ 2 ^ 48 }
    ensures { result ≡ number +ℤ pos after }
{
    number + after as i64
}

fn push_low(out: &mut Coord, at: &[i64], reach: &[Reach])
    requires room { length out.old.items + length at.now ≤ 6 }
    requires low { AreLow at.now }
    requires short { AreShort reach.now }
    ensures { out.new.items ≡ out.old.items ++ by_pairs (λ x r. x -ℤ pos r.before) at.now reach.now }
{
    match at {
        [] => {}
        [number, at @ ..] => match reach {
            [] => {}
            [first, reach @ ..] => {
                out.push(low_of(*number, first.before));
                push_low(out, at, reach);
            }
        },
    }
}

fn push_high(out: &mut Coord, at: &[i64], reach: &[Reach])
    requires room { length out.old.items + length at.now ≤ 6 }
    requires low { AreLow at.now }
    requires short { AreShort reach.now }
    ensures { out.new.items ≡ out.old.items ++ by_pairs (λ x r. x +ℤ pos r.after) at.now reach.now }
{
    match at {
        [] => {}
        [number, at @ ..] => match reach {
            [] => {}
            [first, reach @ ..] => {
                out.push(high_of(*number, first.after));
                push_high(out, at, reach);
            }
        },
    }
}

/// The box that the window around a coordinate reaches.
pub(crate) fn window_of(at: &Coord, reach: &[Reach]) -> Bounds
    requires low { AreLow at.now.items }
    requires short { AreShort reach.now }
    ensures { result ≡ window reach.now at.now.items }
{
    let mut lo = Coord::new();
    let mut hi = Coord::new();
    push_low(&mut lo, at.as_slice(), reach);
    push_high(&mut hi, at.as_slice(), reach);
    Bounds { lo, hi }
}

/// The number less another one, as far as 64 bits go.
fn lowered(number: i64, before: u64) -> i64
    ensures { result ≡ saturate_signed w64 (number -ℤ pos before) }
{
    number.saturating_sub_unsigned(before)
}

/// The number and another one, as far as 64 bits go.
fn raised(number: i64, after: u64) -> i64
    ensures { result ≡ saturate_signed w64 (number +ℤ pos after) }
{
    number.saturating_add_unsigned(after)
}

fn push_lowered(out: &mut Coord, at: &[i64], reach: &[Reach])
    requires { length out.old.items + length at.now ≤ 6 }
    ensures { out.new.items ≡ out.old.items ++ by_pairs (λ x r. saturate_signed w64 (x -ℤ pos r.before)) at.now reach.now }
{
    match at {
        [] => {}
        [number, at @ ..] => match reach {
            [] => {}
            [first, reach @ ..] => {
                out.push(lowered(*number, first.before));
                push_lowered(out, at, reach);
            }
        },
    }
}

fn push_raised(out: &mut Coord, at: &[i64], reach: &[Reach])
    requires { length out.old.items + length at.now ≤ 6 }
    ensures { out.new.items ≡ out.old.items ++ by_pairs (λ x r. saturate_signed w64 (x +ℤ pos r.after)) at.now reach.now }
{
    match at {
        [] => {}
        [number, at @ ..] => match reach {
            [] => {}
            [first, reach @ ..] => {
                out.push(raised(*number, first.after));
                push_raised(out, at, reach);
            }
        },
    }
}

/// The box that the windows around the coordinates of a box reach.
pub(crate) fn reach_of(area: &Bounds, reach: &[Reach]) -> Bounds
    ensures { result ≡ reached reach.now area.now }
{
    let mut lo = Coord::new();
    let mut hi = Coord::new();
    push_lowered(&mut lo, area.lo.as_slice(), reach);
    push_raised(&mut hi, area.hi.as_slice(), reach);
    Bounds { lo, hi }
}
