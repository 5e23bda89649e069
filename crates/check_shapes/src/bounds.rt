//! The greatest bound, and high bounds that are new.
ghost use Rattle.std.specs.Prelude.{◌≡◌, ◌+ℤ◌, pos};
ghost use Rattle.std.specs.Int.{saturate_signed, w64};
ghost use Rattle.logical_plan.specs.Shapes.{last_place};
ghost use Rattle.logical_plan.specs.ShapeSchemas.{length_of};
ghost use Rattle.logical_plan.specs.Typing.{is_bounded};
ghost use Rattle.check_shapes.specs.Pairs.{fits_behind};
ghost use Rattle.check_shapes.specs.Xgrid.{has_room};

use cell_values::Dimension;

/// The greatest bound; a dimension with it has no end.
pub(crate) const GREATEST_BOUND: i64 = 4611686018427387903;

/// Whether a dimension has an end.
pub(crate) fn is_bounded(dimension: &Dimension) -> bool
    ensures { result ≡ is_bounded dimension.now }
{
    dimension.hi != GREATEST_BOUND
}

/// The last place of the last block, or the greatest number where it is beyond.
#[tactic(auto, using(crate::proofs::Room::farther))]
fn last_of_blocks(dimension: &Dimension, size: u64) -> i64
    ensures { result ≡ saturate_signed w64 (last_place dimension.now size dimension.now.hi) }
{
    let before = dimension.hi.abs_diff(dimension.lo).saturating_mul(size);
    dimension
        .lo
        .saturating_add_unsigned(before.saturating_add(size.saturating_sub(1)))
}

/// Whether the last place of the last block is a bound.
#[tactic(auto, using(crate::proofs::Room::same_room))]
pub(crate) fn has_room(dimension: &Dimension, size: u64) -> bool
    ensures { result ≡ has_room dimension.now size }
{
    last_of_blocks(dimension, size) <= GREATEST_BOUND
}

/// The high bound of a dimension behind which another one stands, or the greatest number where it is beyond.
fn raised_high(left: &Dimension, right: &Dimension) -> i64
    ensures { result ≡ saturate_signed w64 (left.now.hi +ℤ pos (length_of right.now)) }
{
    left.hi
        .saturating_add_unsigned(right.hi.abs_diff(right.lo))
        .saturating_add(1)
}

/// Whether the right dimension has room behind the left one.
#[tactic(auto, using(crate::proofs::Room::same_room))]
pub(crate) fn fits_behind(left: &Dimension, right: &Dimension) -> bool
    ensures { result ≡ fits_behind left.now right.now }
{
    raised_high(left, right) <= GREATEST_BOUND
}
