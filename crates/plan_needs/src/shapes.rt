//! What operators that give cells other coordinates, and that put two arrays into one, need of their sources.
ghost use Rattle.std.specs.Prelude.{◌≡◌, ◌+◌, ◌≤◌, ◌++◌, length, reverse};
ghost use Rattle.std.specs.Int.{w64, saturate_signed};
ghost use Rattle.array_rows.specs.Boxes.{by_pairs};
ghost use Rattle.logical_plan.specs.Shapes.{place_of};
ghost use Rattle.plan_needs.specs.ShapeSides.{first_back, mirror, of_behind, of_front, of_reverse, of_transpose, of_xgrid};
ghost use Rattle.plan_needs.specs.ShapeSides.{opposites, places_of, side_back, sources, step_back};
ghost use Rattle.plan_needs.specs.Sides.{whole};
ghost use Rattle.plan_needs.specs.Stretches.{shared};

use crate::boxes::unless_nothing;
use crate::sides::{Sides, has_empty, push_first};
use crate::stretch::{Stretch, all_of, block_last, shared};
use cell_values::{Dimension, List, Schema};

/// Adds the sides, the last one first.
fn push_backwards(out: &mut Sides, sides: &[Stretch])
    requires { length out.old.items + length sides.now ≤ 6 }
    ensures { out.new.items ≡ out.old.items ++ reverse sides.now }
{
    match sides {
        [] => {}
        [side, sides @ ..] => {
            push_backwards(out, sides);
            out.push(*side);
        }
    }
}

/// What a transpose needs.
pub(crate) fn of_transpose(sides: &Sides) -> Sides
    ensures { result.items ≡ of_transpose sides.now.items }
{
    let mut needed = Sides::new();
    push_backwards(&mut needed, sides.as_slice());
    needed
}

/// The place that is as far from the high bound as this one is from the low one.
fn mirror(dimension: &Dimension, place: i64) -> i64
    ensures { result ≡ mirror dimension.now place }
{
    dimension
        .lo
        .saturating_add(dimension.hi)
        .saturating_sub(place)
}

fn opposites(dimension: &Dimension, side: Stretch) -> Stretch
    ensures { result ≡ opposites dimension.now side }
{
    Stretch {
        first: mirror(dimension, side.last),
        last: mirror(dimension, side.first),
    }
}

/// Adds the places opposite of each side.
fn push_opposites(out: &mut Sides, dimensions: &[Dimension], sides: &[Stretch])
    requires { length out.old.items + length sides.now ≤ 6 }
    ensures { out.new.items ≡ out.old.items ++ by_pairs opposites dimensions.now sides.now }
{
    match dimensions {
        [] => {}
        [dimension, dimensions @ ..] => match sides {
            [] => {}
            [side, sides @ ..] => {
                out.push(opposites(dimension, *side));
                push_opposites(out, dimensions, sides);
            }
        },
    }
}

/// What a reverse needs.
pub(crate) fn of_reverse(schema: &Schema, sides: &Sides) -> Sides
    ensures { result.items ≡ of_reverse schema.now.dimensions sides.now.items }
{
    let mut needed = Sides::new();
    push_opposites(&mut needed, schema.dimensions.as_slice(), sides.as_slice());
    needed
}

/// The place whose block has a place.
fn place_of(dimension: &Dimension, size: u64, place: i64) -> i64
    ensures { result ≡ saturate_signed w64 (place_of dimension.now size place) }
{
    if size == 0 {
        return dimension.lo;
    }
    dimension
        .lo
        .saturating_add_unsigned(place.abs_diff(dimension.lo) / size)
}

fn places_of(dimension: &Dimension, size: u64, side: Stretch) -> Stretch
    ensures { result ≡ places_of dimension.now size side }
{
    Stretch {
        first: place_of(dimension, size, side.first),
        last: place_of(dimension, size, side.last),
    }
}

/// The places of a dimension whose blocks have a place of a side.
fn sources(dimension: &Dimension, size: u64, side: Stretch) -> Stretch
    ensures { result ≡ sources dimension.now size side }
{
    let bounds = Stretch {
        first: dimension.lo,
        last: block_last(dimension.lo, size, dimension.hi),
    };
    places_of(dimension, size, shared(bounds, side))
}

/// Adds the places of each dimension whose blocks have a place of its side.
fn push_sources(out: &mut Sides, dimensions: &[Dimension], sizes: &[u64], sides: &[Stretch])
    requires { length out.old.items + length sides.now ≤ 6 }
    ensures { out.new.items ≡ out.old.items ++ by_pairs (λ f s. f s) (by_pairs sources dimensions.now sizes.now) sides.now }
{
    match dimensions {
        [] => {}
        [dimension, dimensions @ ..] => match sizes {
            [] => {}
            [size, sizes @ ..] => match sides {
                [] => {}
                [side, sides @ ..] => {
                    out.push(sources(dimension, *size, *side));
                    push_sources(out, dimensions, sizes, sides);
                }
            },
        },
    }
}

/// What an xgrid into blocks of these sizes needs.
pub(crate) fn of_xgrid(schema: &Schema, sizes: &List<u64>, sides: &Sides) -> Sides
    ensures { result.items ≡ of_xgrid schema.now.dimensions sizes.now sides.now.items }
{
    let mut needed = Sides::new();
    push_sources(
        &mut needed,
        schema.dimensions.as_slice(),
        sizes.as_slice(),
        sides.as_slice(),
    );
    unless_nothing(has_empty(sides.as_slice()), needed)
}

/// Adds what each side has within the bounds of its dimension.
fn push_within(out: &mut Sides, dimensions: &[Dimension], sides: &[Stretch])
    requires { length out.old.items + length sides.now ≤ 6 }
    ensures { out.new.items ≡ out.old.items ++ by_pairs shared (whole dimensions.now) sides.now }
{
    match dimensions {
        [] => {}
        [dimension, dimensions @ ..] => match sides {
            [] => {}
            [side, sides @ ..] => {
                out.push(shared(all_of(dimension), *side));
                push_within(out, dimensions, sides);
            }
        },
    }
}

/// What a concat needs of its left source.
pub(crate) fn of_front(left: &List<Dimension>, sides: &Sides) -> Sides
    ensures { result.items ≡ of_front left.now sides.now.items }
{
    let mut needed = Sides::new();
    push_within(&mut needed, left.as_slice(), sides.as_slice());
    needed
}

/// A place moved back as far as those of the right array are moved to stand behind the left one.
fn step_back(left: &Dimension, right: &Dimension, place: i64) -> i64
    ensures { result ≡ step_back left.now right.now place }
{
    let step = left.hi.saturating_sub(right.lo).saturating_add(1);
    place.saturating_sub(step)
}

/// The places of a stretch of the first dimension before they were moved.
fn side_back(left: &[Dimension], right: &[Dimension], side: Stretch) -> Stretch
    ensures { result ≡ side_back left.now right.now side }
{
    match left {
        [] => side,
        [l, ..] => match right {
            [] => side,
            [r, ..] => Stretch {
                first: step_back(l, r, side.first),
                last: step_back(l, r, side.last),
            },
        },
    }
}

/// Adds the sides, the first one moved back.
fn push_back(out: &mut Sides, left: &[Dimension], right: &[Dimension], sides: &[Stretch])
    requires { length out.old.items + length sides.now ≤ 6 }
    ensures { out.new.items ≡ out.old.items ++ first_back left.now right.now sides.now }
{
    match sides {
        [] => {}
        [side, sides @ ..] => {
            out.push(side_back(left, right, *side));
            push_first(out, sides.len(), sides);
        }
    }
}

/// What a concat needs of its right source.
pub(crate) fn of_behind(left: &List<Dimension>, right: &List<Dimension>, sides: &Sides) -> Sides
    ensures { result.items ≡ of_behind left.now right.now sides.now.items }
{
    let mut moved = Sides::new();
    push_back(
        &mut moved,
        left.as_slice(),
        right.as_slice(),
        sides.as_slice(),
    );
    let mut needed = Sides::new();
    push_within(&mut needed, right.as_slice(), moved.as_slice());
    needed
}
