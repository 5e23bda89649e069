//! What operators along lines of cells need of their source.
ghost use Rattle.std.specs.Prelude.{◌≡◌, ◌+◌, ◌≤◌, ◌++◌, ◌==◌, if◌then◌else◌, length};
ghost use Rattle.std.specs.List.{list_any};
ghost use Rattle.plan_needs.specs.OrderSides.{from_low, kept_sides, of_cumulate, of_rank};
ghost use Rattle.plan_needs.specs.Stretches.{all_of};

use crate::boxes::unless_nothing;
use crate::sides::{Sides, has_empty, push_first};
use crate::stretch::{Stretch, all_of};
use cell_values::{Dimension, List, Schema};

fn is_named(places: &[u32], place: usize) -> bool
    ensures { result ≡ list_any (λ n. n == place) places.now }
{
    match places {
        [] => false,
        [named, places @ ..] => *named as usize == place || is_named(places, place),
    }
}

/// The side of a named dimension, or all of another one.
fn kept(places: &[u32], place: usize, dimension: &Dimension, side: Stretch) -> Stretch
    ensures { result ≡ (if list_any (λ n. n == place) places.now then side else all_of dimension.now) }
{
    if is_named(places, place) {
        side
    } else {
        all_of(dimension)
    }
}

/// Adds for each dimension, the first of which has this place, its side where it is named, or else all of it.
fn push_kept(
    out: &mut Sides,
    places: &[u32],
    place: usize,
    dimensions: &[Dimension],
    sides: &[Stretch],
)
    requires room { length out.old.items + length sides.now ≤ 6 }
    requires places { place + length sides.now ≤ 6 }
    ensures { out.new.items ≡ out.old.items ++ kept_sides places.now place dimensions.now sides.now }
{
    match dimensions {
        [] => {}
        [dimension, dimensions @ ..] => match sides {
            [] => {}
            [side, sides @ ..] => {
                out.push(kept(places, place, dimension, *side));
                push_kept(out, places, place + 1, dimensions, sides);
            }
        },
    }
}

/// What a rank by the dimensions at these places needs.
pub(crate) fn of_rank(schema: &Schema, places: &List<u32>, sides: &Sides) -> Sides
    ensures { result.items ≡ of_rank schema.now.dimensions places.now sides.now.items }
{
    let mut needed = Sides::new();
    push_kept(
        &mut needed,
        places.as_slice(),
        0,
        schema.dimensions.as_slice(),
        sides.as_slice(),
    );
    unless_nothing(has_empty(sides.as_slice()), needed)
}

/// Adds each side, that of the dimension at a place from its low bound on.
fn push_from_low(out: &mut Sides, place: usize, dimensions: &[Dimension], sides: &[Stretch])
    requires { length out.old.items + length sides.now ≤ 6 }
    ensures { out.new.items ≡ out.old.items ++ from_low place dimensions.now sides.now }
{
    match dimensions {
        [] => {}
        [dimension, dimensions @ ..] => match sides {
            [] => {}
            [side, sides @ ..] => {
                if place == 0 {
                    out.push(Stretch {
                        first: dimension.lo,
                        last: side.last,
                    });
                    push_first(out, sides.len(), sides);
                } else {
                    out.push(*side);
                    push_from_low(out, place - 1, dimensions, sides);
                }
            }
        },
    }
}

/// What a cumulate along the dimension at a place needs.
pub(crate) fn of_cumulate(schema: &Schema, place: u32, sides: &Sides) -> Sides
    ensures { result.items ≡ of_cumulate schema.now.dimensions place sides.now.items }
{
    let mut needed = Sides::new();
    push_from_low(
        &mut needed,
        place as usize,
        schema.dimensions.as_slice(),
        sides.as_slice(),
    );
    unless_nothing(has_empty(sides.as_slice()), needed)
}
