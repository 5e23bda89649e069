//! What an operator needs of its source.
ghost use Rattle.std.specs.Prelude.{◌≡◌};
ghost use Rattle.cell_values.specs.Schemas.{IsValid};
ghost use Rattle.plan_needs.specs.Sides.{are_near, named_sides, of_aggregate, of_between, of_left};
ghost use Rattle.plan_needs.specs.Sides.{of_regrid, of_right, of_slice, of_subarray, of_windows, unless_nothing, whole};

use crate::sides::{
    Sides, has_beyond, has_empty, push_blocks, push_first, push_grown, push_held, push_lifted,
    push_lows, push_named, push_nothing, push_right, push_shared, push_whole, sides_of,
};
use cell_values::{Bounds, Coord, Dimension, List, Schema};
use logical_plan::{Fixed, Pair, Reach};

/// The box, or nothing of any dimension where nothing is needed. A cross join needs of each source what the box has of that source's
/// dimensions: of both it needs nothing only where no side has a place.
pub(crate) fn unless_nothing(none: bool, sides: Sides) -> Sides
    ensures { result.items ≡ unless_nothing none sides.items }
{
    if !none {
        return sides;
    }
    let mut nothing = Sides::new();
    push_nothing(&mut nothing, sides.as_slice());
    nothing
}

pub(crate) fn of_between(area: &Bounds, sides: &Sides) -> Sides
    ensures { result.items ≡ of_between area.now sides.now.items }
{
    let mut needed = Sides::new();
    push_shared(&mut needed, sides.as_slice(), sides_of(area).as_slice());
    needed
}

#[tactic(auto, using(array_geom::proofs::MarginLaws::few_dimensions))]
pub(crate) fn whole(schema: &Schema) -> Sides
    requires { IsValid schema.now }
    ensures { result.items ≡ whole schema.now.dimensions }
{
    let mut needed = Sides::new();
    push_whole(&mut needed, schema.dimensions.as_slice());
    needed
}

#[tactic(auto, using(array_geom::proofs::MarginLaws::few_dimensions))]
pub(crate) fn of_subarray(schema: &Schema, area: &Bounds, sides: &Sides) -> Sides
    requires { IsValid schema.now }
    ensures { result.items ≡ of_subarray schema.now.dimensions area.now sides.now.items }
{
    let mut lows = Coord::new();
    push_lows(&mut lows, schema.dimensions.as_slice(), area.lo.as_slice());
    let mut needed = Sides::new();
    push_lifted(&mut needed, sides.as_slice(), lows.as_slice());
    needed
}

#[tactic(auto, using(array_geom::proofs::MarginLaws::few_dimensions))]
pub(crate) fn of_slice(schema: &Schema, fixed: &List<Fixed>, sides: &Sides) -> Sides
    requires { IsValid schema.now }
    ensures { result.items ≡ of_slice schema.now.dimensions fixed.now sides.now.items }
{
    let mut needed = Sides::new();
    push_held(
        &mut needed,
        schema.dimensions.as_slice(),
        0,
        fixed,
        sides.as_slice(),
    );
    unless_nothing(
        has_beyond(schema.dimensions.as_slice(), fixed.as_slice()),
        needed,
    )
}

/// The left dimensions' sides of a box of a cross join.
pub(crate) fn of_left(left: &List<Dimension>, sides: &Sides) -> Sides
    ensures { result.items ≡ of_left left.now sides.now.items }
{
    let mut needed = Sides::new();
    push_first(&mut needed, left.len(), sides.as_slice());
    needed
}

#[tactic(auto, using(array_geom::proofs::MarginLaws::few_dimensions))]
pub(crate) fn of_right(
    left: &List<Dimension>,
    right: &Schema,
    pairs: &List<Pair>,
    sides: &Sides,
) -> Sides
    requires { IsValid right.now }
    ensures { result.items ≡ of_right left.now right.now.dimensions pairs.now sides.now.items }
{
    let mut needed = Sides::new();
    let own = &sides.as_slice()[left.len().min(sides.len())..];
    push_right(
        &mut needed,
        right.dimensions.as_slice(),
        0,
        pairs,
        sides,
        own,
    );
    needed
}

pub(crate) fn of_regrid(schema: &Schema, sizes: &List<u64>, sides: &Sides) -> Sides
    ensures { result.items ≡ of_regrid schema.now.dimensions sizes.now sides.now.items }
{
    let mut needed = Sides::new();
    push_blocks(
        &mut needed,
        schema.dimensions.as_slice(),
        sizes.as_slice(),
        sides.as_slice(),
    );
    unless_nothing(has_empty(sides.as_slice()), needed)
}

#[tactic(auto, using(array_geom::proofs::MarginLaws::few_dimensions))]
fn named(schema: &Schema, places: &[u32], sides: &Sides) -> Sides
    requires { IsValid schema.now }
    ensures { result.items ≡ named_sides places.now sides.now.items 0 schema.now.dimensions }
{
    let mut needed = Sides::new();
    push_named(
        &mut needed,
        places,
        sides.as_slice(),
        0,
        schema.dimensions.as_slice(),
    );
    needed
}

pub(crate) fn of_aggregate(schema: &Schema, places: &List<u32>, sides: &Sides) -> Sides
    requires { IsValid schema.now }
    ensures { result.items ≡ of_aggregate schema.now.dimensions places.now sides.now.items }
{
    let needed = match places.as_slice() {
        [] => whole(schema),
        _ => named(schema, places.as_slice(), sides),
    };
    unless_nothing(has_empty(sides.as_slice()), needed)
}

/// Whether no window reaches farther than its dimension's overlap.
pub(crate) fn are_near(reach: &[Reach], dimensions: &[Dimension]) -> bool
    ensures { result ≡ are_near reach.now dimensions.now }
{
    match reach {
        [] => true,
        [r, reach @ ..] => match dimensions {
            [] => false,
            [d, dimensions @ ..] => {
                r.before <= d.overlap && r.after <= d.overlap && are_near(reach, dimensions)
            }
        },
    }
}

pub(crate) fn of_windows(schema: &Schema, reach: &List<Reach>, sides: &Sides) -> Sides
    ensures { result.items ≡ of_windows schema.now.dimensions reach.now sides.now.items }
{
    let mut needed = Sides::new();
    push_grown(
        &mut needed,
        schema.dimensions.as_slice(),
        reach.as_slice(),
        sides.as_slice(),
    );
    unless_nothing(has_empty(sides.as_slice()), needed)
}
