//! Stretches of places along a dimension.
ghost use Rattle.std.specs.Prelude.{◌≡◌, if◌then◌else◌};
ghost use Rattle.plan_needs.specs.Stretches.{all_of, block_first, block_last, blocks, grown, block_places, is_empty, lifted, shared};

use cell_values::Dimension;
use logical_plan::Reach;

/// Places along a dimension, from the first to the last. Where the first is above the last, there are none.
#[derive(Clone, Copy, Default)]
pub struct Stretch {
    pub first: i64,
    pub last: i64,
}

/// All places of a dimension.
pub(crate) fn all_of(dimension: &Dimension) -> Stretch
    ensures { result ≡ all_of dimension.now }
{
    Stretch {
        first: dimension.lo,
        last: dimension.hi,
    }
}

pub(crate) fn is_empty(side: Stretch) -> bool
    ensures { result ≡ is_empty side }
{
    side.last < side.first
}

/// What two stretches share.
pub(crate) fn shared(a: Stretch, b: Stretch) -> Stretch
    ensures { result ≡ shared a b }
{
    Stretch {
        first: a.first.max(b.first),
        last: a.last.min(b.last),
    }
}

/// A stretch moved by a number.
pub(crate) fn lifted(side: Stretch, by: i64) -> Stretch
    ensures { result ≡ lifted side by }
{
    Stretch {
        first: side.first.saturating_add(by),
        last: side.last.saturating_add(by),
    }
}

/// The places of a dimension that windows round a stretch reach.
pub(crate) fn grown(dimension: &Dimension, reach: Reach, side: Stretch) -> Stretch
    ensures { result ≡ grown dimension.now reach side }
{
    if is_empty(side) {
        return side;
    }
    shared(
        all_of(dimension),
        Stretch {
            first: side.first.saturating_sub_unsigned(reach.before),
            last: side.last.saturating_add_unsigned(reach.after),
        },
    )
}

/// The first place of a block.
#[tactic(auto, using(crate::proofs::Saturated::far))]
fn block_first(low: i64, size: u64, x: i64) -> i64
    ensures { result ≡ block_first low size x }
{
    low.saturating_add_unsigned(x.abs_diff(low).saturating_mul(size))
}

/// The last place of a block.
#[tactic(auto, using(crate::proofs::Saturated::farther))]
pub(crate) fn block_last(low: i64, size: u64, x: i64) -> i64
    ensures { result ≡ block_last low size x }
{
    let before = x.abs_diff(low).saturating_mul(size);
    low.saturating_add_unsigned(before.saturating_add(size.saturating_sub(1)))
}

/// The places of a dimension in the blocks with these numbers.
fn block_places(dimension: &Dimension, size: u64, side: Stretch) -> Stretch
    ensures { result ≡ block_places dimension.now size side }
{
    if is_empty(side) {
        return side;
    }
    shared(
        all_of(dimension),
        Stretch {
            first: block_first(dimension.lo, size, side.first),
            last: block_last(dimension.lo, size, side.last),
        },
    )
}

/// The places of a dimension whose blocks a stretch has.
pub(crate) fn blocks(dimension: &Dimension, size: u64, side: Stretch) -> Stretch
    ensures { result ≡ blocks dimension.now size side }
{
    block_places(dimension, size, shared(all_of(dimension), side))
}
