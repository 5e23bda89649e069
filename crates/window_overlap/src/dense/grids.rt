//! Boxes that are small enough to have a place for each coordinate.
ghost use Rattle.std.specs.Prelude.{◌≡◌, ◌+◌, ◌≤◌, ◌<◌, ◌++◌, ◌^◌, ℕ, pos, true, map, length, slice_index_or, IsTrue, IfSome, IfOk};
ghost use Rattle.array_rows.specs.Boxes.{by_pairs, is_inside};
ghost use Rattle.array_rows.specs.Rows.{Coordinate};
ghost use Rattle.array_geom.specs.Geometry.{volume};
ghost use Rattle.array_geom.specs.Inner.Ranges.{AreLow, IsGrid, is_in_grid};
ghost use Rattle.window_overlap.specs.Inner.Dense.{AreOffsets, HaveSpans, span, widths, zeros};

use array_geom::{Grid, Lengths};
use cell_values::{Bounds, Coord, List, Memory, copy_coord, copy_numbers};
use logical_plan::Reach;
use std::alloc::Global;

/// Adds how long a box is in each dimension, if it has at most so many places.
fn push_spans(out: &mut Lengths, lo: &[i64], hi: &[i64], limit: u64) -> bool
    requires room { length out.old.items + length lo.now ≤ 6 }
    requires some { 1 ≤ limit }
    ensures lengths { IsTrue result → out.new.items ≡ out.old.items ++ by_pairs span lo.now hi.now }
    ensures spans { IsTrue result → HaveSpans lo.now hi.now limit }
{
    match lo {
        [] => hi.is_empty(),
        [l, lo @ ..] => match hi {
            [] => false,
            [h, hi @ ..] => {
                if *h < *l || *l < -4611686018427387904 || 4611686018427387904 < *h {
                    return false;
                }
                let wide = (*h).abs_diff(*l);
                if limit <= wide {
                    return false;
                }
                out.push(wide + 1);
                push_spans(out, lo, hi, limit / (wide + 1))
            }
        },
    }
}

/// A box as a grid, if it has few places enough.
pub(crate) fn grid_between(area: &Bounds) -> Option<Grid>
    ensures grid { IfSome result IsGrid }
    ensures low { IfSome result (λ grid. grid.low.items ≡ area.now.lo.items) }
    ensures lengths { IfSome result (λ grid. grid.lengths.items ≡ by_pairs span area.now.lo.items area.now.hi.items) }
    ensures held { IfSome result (λ grid. (c : Coordinate) → is_inside area.now c ≡ true → is_in_grid grid.low.items grid.lengths.items c ≡ true) }
    ensures low_places { IfSome result (λ grid. (c : Coordinate) → is_in_grid grid.low.items grid.lengths.items c ≡ true → AreLow c) }
{
    let mut lengths = Lengths::new();
    if push_spans(
        &mut lengths,
        area.lo.as_slice(),
        area.hi.as_slice(),
        16777216,
    ) {
        Some(Grid {
            low: copy_coord(&area.lo),
            lengths,
        })
    } else {
        None
    }
}

fn push_widths(out: &mut Coord, reach: &[Reach]) -> bool
    requires { length out.old.items + length reach.now ≤ 6 }
    ensures { IsTrue result → out.new.items ≡ out.old.items ++ widths reach.now }
{
    match reach {
        [] => true,
        [first, reach @ ..] => {
            if first.before > 16777216 || first.after > 16777216 {
                return false;
            }
            out.push((first.before + first.after) as i64);
            push_widths(out, reach)
        }
    }
}

fn push_zeros(out: &mut Coord, reach: &[Reach])
    requires { length out.old.items + length reach.now ≤ 6 }
    ensures { out.new.items ≡ out.old.items ++ zeros reach.now }
{
    match reach {
        [] => {}
        [_, reach @ ..] => {
            out.push(0);
            push_zeros(out, reach);
        }
    }
}

/// A window as a grid, from its low corner on.
pub(crate) fn window_grid(reach: &[Reach]) -> Option<Grid>
    requires { length reach.now ≤ 6 }
    ensures grid { IfSome result IsGrid }
    ensures low { IfSome result (λ grid. grid.low.items ≡ zeros reach.now) }
    ensures lengths { IfSome result (λ grid. grid.lengths.items ≡ by_pairs span (zeros reach.now) (widths reach.now)) }
{
    let mut lo = Coord::new();
    let mut hi = Coord::new();
    push_zeros(&mut lo, reach);
    if push_widths(&mut hi, reach) {
        grid_between(&Bounds { lo, hi })
    } else {
        None
    }
}

/// The same lengths from other low numbers on.
pub(crate) fn grid_from(low: &Coord, grid: &Grid) -> Grid
    ensures low { result.low ≡ low.now }
    ensures lengths { result.lengths ≡ grid.now.lengths }
{
    Grid {
        low: copy_coord(low),
        lengths: copy_numbers(&grid.lengths),
    }
}

/// Whether no length is above another.
pub(crate) fn fits(lengths: &[u64], others: &[u64]) -> bool
    ensures each { IsTrue result → length lengths.now ≡ length others.now }
    ensures held { IsTrue result → (low : Coordinate) (c : Coordinate) → is_in_grid low lengths.now c ≡ true → is_in_grid low others.now c ≡ true }
{
    match lengths {
        [] => others.is_empty(),
        [n, lengths @ ..] => match others {
            [] => false,
            [m, others @ ..] => *n <= *m && fits(lengths, others),
        },
    }
}

/// How far each place of a window is from its low corner, in another grid.
pub(crate) fn offsets(alloc: Global, window: &Grid, within: &Grid) -> Result<List<u64>, Memory>
    requires window { IsGrid window.now }
    requires within { IsGrid within.now }
    requires low { within.now.low.items ≡ window.now.low.items }
    requires fits { (c : Coordinate) → is_in_grid window.now.low.items window.now.lengths.items c ≡ true → is_in_grid within.now.low.items within.now.lengths.items c ≡ true }
    ensures { IfOk result (AreOffsets window.now within.now) }
{
    let count = window.volume();
    let mut offsets = List::new(alloc);
    for k in 0..count {
        offsets.push(within.position(&window.place(k)))?;
    }
    Ok(offsets)
}
