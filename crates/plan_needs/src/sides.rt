//! Boxes, dimension by dimension.
ghost use Rattle.std.specs.Prelude.{◌≡◌, ◌+◌, ◌≤◌, ◌++◌, length, map, slice_get, take};
ghost use Rattle.std.specs.Int.{int_max};
ghost use Rattle.array_rows.specs.Boxes.{by_pairs, bounds_of};
ghost use Rattle.plan_needs.specs.Sides.{box_of, clipped, filled, has_beyond, has_empty, held_at, left_of, misses, named_sides};
ghost use Rattle.plan_needs.specs.Sides.{paired_with, side_named, sides_of, whole};
ghost use Rattle.plan_needs.specs.Stretches.{blocks, grown, is_empty, lifted, nothing, shared, stretch};

use crate::stretch::{Stretch, all_of, blocks, grown, is_empty, lifted, shared};
use arrayvec::ArrayVec;
use cell_values::{Bounds, Coord, Dimension, List};
use logical_plan::{Fixed, Pair, Reach};

/// A stretch for each dimension.
pub(crate) type Sides = ArrayVec<Stretch, 6>;

fn push_sides(out: &mut Sides, lo: &[i64], hi: &[i64])
    requires { length out.old.items + length lo.now ≤ 6 }
    ensures { out.new.items ≡ out.old.items ++ by_pairs stretch lo.now hi.now }
{
    match lo {
        [] => {}
        [first, lo @ ..] => match hi {
            [] => {}
            [last, hi @ ..] => {
                out.push(Stretch {
                    first: *first,
                    last: *last,
                });
                push_sides(out, lo, hi);
            }
        },
    }
}

/// The sides of a box.
pub(crate) fn sides_of(area: &Bounds) -> Sides
    ensures { result.items ≡ sides_of area.now }
{
    let mut sides = Sides::new();
    push_sides(&mut sides, area.lo.as_slice(), area.hi.as_slice());
    sides
}

fn push_firsts(out: &mut Coord, sides: &[Stretch])
    requires { length out.old.items + length sides.now ≤ 6 }
    ensures { out.new.items ≡ out.old.items ++ map (λ s. s.first) sides.now }
{
    match sides {
        [] => {}
        [side, sides @ ..] => {
            out.push(side.first);
            push_firsts(out, sides);
        }
    }
}

fn push_lasts(out: &mut Coord, sides: &[Stretch])
    requires { length out.old.items + length sides.now ≤ 6 }
    ensures { out.new.items ≡ out.old.items ++ map (λ s. s.last) sides.now }
{
    match sides {
        [] => {}
        [side, sides @ ..] => {
            out.push(side.last);
            push_lasts(out, sides);
        }
    }
}

/// The box that has these sides.
pub(crate) fn box_of(sides: &Sides) -> Bounds
    ensures { result ≡ box_of sides.now.items }
{
    let mut lo = Coord::new();
    let mut hi = Coord::new();
    push_firsts(&mut lo, sides.as_slice());
    push_lasts(&mut hi, sides.as_slice());
    Bounds { lo, hi }
}

/// The same sides once more.
pub(crate) fn copy_sides(sides: &Sides) -> Sides
    ensures { result.items ≡ sides.now.items }
{
    let mut copy = Sides::new();
    push_first(&mut copy, sides.len(), sides.as_slice());
    copy
}

/// Adds all places of each dimension.
pub(crate) fn push_whole(out: &mut Sides, dimensions: &[Dimension])
    requires { length out.old.items + length dimensions.now ≤ 6 }
    ensures { out.new.items ≡ out.old.items ++ whole dimensions.now }
{
    match dimensions {
        [] => {}
        [dimension, dimensions @ ..] => {
            out.push(all_of(dimension));
            push_whole(out, dimensions);
        }
    }
}

/// Adds what each two stretches share.
pub(crate) fn push_shared(out: &mut Sides, a: &[Stretch], b: &[Stretch])
    requires { length out.old.items + length a.now ≤ 6 }
    ensures { out.new.items ≡ out.old.items ++ by_pairs shared a.now b.now }
{
    match a {
        [] => {}
        [x, a @ ..] => match b {
            [] => {}
            [y, b @ ..] => {
                out.push(shared(*x, *y));
                push_shared(out, a, b);
            }
        },
    }
}

/// Adds the lowest number of each dimension's part from a number on.
pub(crate) fn push_lows(out: &mut Coord, dimensions: &[Dimension], from: &[i64])
    requires { length out.old.items + length dimensions.now ≤ 6 }
    ensures { out.new.items ≡ out.old.items ++ by_pairs int_max (map (λ d. d.lo) dimensions.now) from.now }
{
    match dimensions {
        [] => {}
        [dimension, dimensions @ ..] => match from {
            [] => {}
            [low, from @ ..] => {
                out.push(dimension.lo.max(*low));
                push_lows(out, dimensions, from);
            }
        },
    }
}

/// Adds each stretch, moved by its number.
pub(crate) fn push_lifted(out: &mut Sides, sides: &[Stretch], by: &[i64])
    requires { length out.old.items + length sides.now ≤ 6 }
    ensures { out.new.items ≡ out.old.items ++ by_pairs lifted sides.now by.now }
{
    match sides {
        [] => {}
        [side, sides @ ..] => match by {
            [] => {}
            [n, by @ ..] => {
                out.push(lifted(*side, *n));
                push_lifted(out, sides, by);
            }
        },
    }
}

/// Adds the places of each dimension whose blocks its stretch has.
pub(crate) fn push_blocks(
    out: &mut Sides,
    dimensions: &[Dimension],
    sizes: &[u64],
    sides: &[Stretch],
)
    requires { length out.old.items + length sides.now ≤ 6 }
    ensures { out.new.items ≡ out.old.items ++ by_pairs (λ f s. f s) (by_pairs blocks dimensions.now sizes.now) sides.now }
{
    match dimensions {
        [] => {}
        [dimension, dimensions @ ..] => match sizes {
            [] => {}
            [size, sizes @ ..] => match sides {
                [] => {}
                [side, sides @ ..] => {
                    out.push(blocks(dimension, *size, *side));
                    push_blocks(out, dimensions, sizes, sides);
                }
            },
        },
    }
}

/// Adds the places of each dimension that windows round its stretch reach.
pub(crate) fn push_grown(
    out: &mut Sides,
    dimensions: &[Dimension],
    reach: &[Reach],
    sides: &[Stretch],
)
    requires { length out.old.items + length sides.now ≤ 6 }
    ensures { out.new.items ≡ out.old.items ++ by_pairs (λ f s. f s) (by_pairs grown dimensions.now reach.now) sides.now }
{
    match dimensions {
        [] => {}
        [dimension, dimensions @ ..] => match reach {
            [] => {}
            [r, reach @ ..] => match sides {
                [] => {}
                [side, sides @ ..] => {
                    out.push(grown(dimension, *r, *side));
                    push_grown(out, dimensions, reach, sides);
                }
            },
        },
    }
}

fn held_at(fixed: &List<Fixed>, place: usize) -> Option<Stretch>
    ensures { result ≡ held_at fixed.now place }
{
    let found = fixed
        .as_slice()
        .iter()
        .find(|f| f.dimension as usize == place);
    match found {
        Some(f) => Some(Stretch {
            first: f.at,
            last: f.at,
        }),
        None => None,
    }
}

/// Adds for each dimension, the first of which has this place, the number at which it is held, or else the next side.
pub(crate) fn push_held(
    out: &mut Sides,
    dimensions: &[Dimension],
    place: usize,
    fixed: &List<Fixed>,
    sides: &[Stretch],
)
    requires room { length out.old.items + length dimensions.now ≤ 6 }
    requires places { place + length dimensions.now ≤ 6 }
    ensures { out.new.items ≡ out.old.items ++ filled (held_at fixed.now) place dimensions.now sides.now }
{
    match dimensions {
        [] => {}
        [dimension, dimensions @ ..] => match held_at(fixed, place) {
            Some(held) => {
                out.push(shared(all_of(dimension), held));
                push_held(out, dimensions, place + 1, fixed, sides);
            }
            None => match sides {
                [] => {}
                [side, sides @ ..] => {
                    out.push(shared(all_of(dimension), *side));
                    push_held(out, dimensions, place + 1, fixed, sides);
                }
            },
        },
    }
}

fn left_of(pairs: &List<Pair>, place: usize) -> Option<u32>
    ensures { result ≡ left_of pairs.now place }
{
    let found = pairs.as_slice().iter().find(|p| p.right as usize == place);
    match found {
        Some(pair) => Some(pair.left),
        None => None,
    }
}

fn side_at(sides: &Sides, place: usize) -> Option<Stretch>
    ensures { result ≡ slice_get sides.now.items place }
{
    match sides.as_slice().get(place) {
        Some(side) => Some(*side),
        None => None,
    }
}

fn paired_with(pairs: &List<Pair>, sides: &Sides, place: usize) -> Option<Stretch>
    ensures { result ≡ paired_with pairs.now sides.now.items place }
{
    match left_of(pairs, place) {
        Some(left) => side_at(sides, left as usize),
        None => None,
    }
}

/// Adds for each right dimension, the first of which has this place, the side of the left one that it is paired with, or else the
/// next one of these sides.
pub(crate) fn push_right(
    out: &mut Sides,
    dimensions: &[Dimension],
    place: usize,
    pairs: &List<Pair>,
    all: &Sides,
    sides: &[Stretch],
)
    requires room { length out.old.items + length dimensions.now ≤ 6 }
    requires places { place + length dimensions.now ≤ 6 }
    ensures { out.new.items ≡ out.old.items ++ filled (paired_with pairs.now all.now.items) place dimensions.now sides.now }
{
    match dimensions {
        [] => {}
        [dimension, dimensions @ ..] => match paired_with(pairs, all, place) {
            Some(paired) => {
                out.push(shared(all_of(dimension), paired));
                push_right(out, dimensions, place + 1, pairs, all, sides);
            }
            None => match sides {
                [] => {}
                [side, sides @ ..] => {
                    out.push(shared(all_of(dimension), *side));
                    push_right(out, dimensions, place + 1, pairs, all, sides);
                }
            },
        },
    }
}

fn side_named(places: &[u32], sides: &[Stretch], place: usize) -> Option<Stretch>
    ensures { result ≡ side_named places.now sides.now place }
{
    match places {
        [] => None,
        [named, places @ ..] => match sides {
            [] => None,
            [side, sides @ ..] => {
                if *named as usize == place {
                    Some(*side)
                } else {
                    side_named(places, sides, place)
                }
            }
        },
    }
}

fn clipped(dimension: &Dimension, side: Option<Stretch>) -> Stretch
    ensures { result ≡ clipped dimension.now side }
{
    match side {
        Some(side) => shared(all_of(dimension), side),
        None => all_of(dimension),
    }
}

/// Adds for each dimension, the first of which has this place, the side at the place at which it is named, or else all of it.
pub(crate) fn push_named(
    out: &mut Sides,
    places: &[u32],
    sides: &[Stretch],
    place: usize,
    dimensions: &[Dimension],
)
    requires room { length out.old.items + length dimensions.now ≤ 6 }
    requires places { place + length dimensions.now ≤ 6 }
    ensures { out.new.items ≡ out.old.items ++ named_sides places.now sides.now place dimensions.now }
{
    match dimensions {
        [] => {}
        [dimension, dimensions @ ..] => {
            out.push(clipped(dimension, side_named(places, sides, place)));
            push_named(out, places, sides, place + 1, dimensions);
        }
    }
}

/// Adds nothing for each side.
pub(crate) fn push_nothing(out: &mut Sides, sides: &[Stretch])
    requires { length out.old.items + length sides.now ≤ 6 }
    ensures { out.new.items ≡ out.old.items ++ map (λ s. nothing) sides.now }
{
    match sides {
        [] => {}
        [_, sides @ ..] => {
            out.push(Stretch { first: 1, last: 0 });
            push_nothing(out, sides);
        }
    }
}

/// Adds the first ones of these sides.
pub(crate) fn push_first(out: &mut Sides, count: usize, sides: &[Stretch])
    requires { length out.old.items + length sides.now ≤ 6 }
    ensures { out.new.items ≡ out.old.items ++ take count sides.now }
{
    match sides {
        [] => {}
        [side, sides @ ..] => {
            if count > 0 {
                out.push(*side);
                push_first(out, count - 1, sides);
            }
        }
    }
}

pub(crate) fn has_empty(sides: &[Stretch]) -> bool
    ensures { result ≡ has_empty sides.now }
{
    match sides {
        [] => false,
        [side, sides @ ..] => is_empty(*side) || has_empty(sides),
    }
}

/// Whether a number that is held is beyond the bounds of its dimension.
fn misses(fixed: &Fixed, dimensions: &[Dimension]) -> bool
    ensures { result ≡ misses fixed.now (slice_get dimensions.now fixed.now.dimension) }
{
    match dimensions.get(fixed.dimension as usize) {
        Some(dimension) => fixed.at < dimension.lo || dimension.hi < fixed.at,
        None => false,
    }
}

pub(crate) fn has_beyond(dimensions: &[Dimension], fixed: &[Fixed]) -> bool
    ensures { result ≡ has_beyond dimensions.now fixed.now }
{
    match fixed {
        [] => false,
        [f, fixed @ ..] => misses(f, dimensions) || has_beyond(dimensions, fixed),
    }
}
