//! The dimensions of results that are turned round or made longer.
ghost use Rattle.std.specs.Prelude.{◌≡◌, ◌++◌, ◌+ℤ◌, pos, reverse, IfOk, OnOk};
ghost use Rattle.std.specs.Int.{w64, saturate_signed};
ghost use Rattle.logical_plan.specs.Boxes.{by_pairs};
ghost use Rattle.logical_plan.specs.Shapes.{last_place};
ghost use Rattle.logical_plan.specs.ShapeSchemas.{enlarged, length_of, lengthened as lengthened_dimensions, with_high};

use cell_values::{Dimension, List, Memory};

/// Adds copies of dimensions, the last one first.
pub(crate) fn push_backwards(
    made: &mut List<Dimension>,
    dimensions: &[Dimension],
) -> Result<(), Memory>
    ensures { OnOk result (made.new ≡ made.old ++ reverse dimensions.now) }
{
    match dimensions {
        [] => Ok(()),
        [dimension, dimensions @ ..] => {
            push_backwards(made, dimensions)?;
            made.push(dimension.copy()?)
        }
    }
}

/// The last place of the block of the last place.
#[tactic(auto, using(crate::proofs::Farther::farther))]
fn last_of_blocks(dimension: &Dimension, size: u64) -> i64
    ensures { result ≡ saturate_signed w64 (last_place dimension.now size dimension.now.hi) }
{
    let before = dimension.hi.abs_diff(dimension.lo).saturating_mul(size);
    dimension
        .lo
        .saturating_add_unsigned(before.saturating_add(size.saturating_sub(1)))
}

fn enlarged(dimension: &Dimension, size: u64) -> Result<Dimension, Memory>
    ensures { IfOk result (λ made. made ≡ enlarged dimension.now size) }
{
    Ok(Dimension {
        name: dimension.name.copy()?,
        lo: dimension.lo,
        hi: last_of_blocks(dimension, size),
        chunk: dimension.chunk,
        overlap: dimension.overlap,
    })
}

/// Adds each dimension with a block of places for each of its places.
pub(crate) fn push_enlarged(
    made: &mut List<Dimension>,
    dimensions: &[Dimension],
    sizes: &[u64],
) -> Result<(), Memory>
    ensures { OnOk result (made.new ≡ made.old ++ by_pairs enlarged dimensions.now sizes.now) }
{
    match dimensions {
        [] => Ok(()),
        [dimension, dimensions @ ..] => match sizes {
            [] => Ok(()),
            [size, sizes @ ..] => {
                made.push(enlarged(dimension, *size)?)?;
                push_enlarged(made, dimensions, sizes)
            }
        },
    }
}

fn raised_high(left: &Dimension, right: &Dimension) -> i64
    ensures { result ≡ saturate_signed w64 (left.now.hi +ℤ pos (length_of right.now)) }
{
    left.hi
        .saturating_add_unsigned(right.hi.abs_diff(right.lo))
        .saturating_add(1)
}

fn longer(left: &Dimension, right: &Dimension) -> Result<Dimension, Memory>
    ensures { IfOk result (λ made. made ≡ with_high left.now (left.now.hi +ℤ pos (length_of right.now))) }
{
    Ok(Dimension {
        name: left.name.copy()?,
        lo: left.lo,
        hi: raised_high(left, right),
        chunk: left.chunk,
        overlap: left.overlap,
    })
}

fn push_copies(made: &mut List<Dimension>, dimensions: &[Dimension]) -> Result<(), Memory>
    ensures { OnOk result (made.new ≡ made.old ++ dimensions.now) }
{
    match dimensions {
        [] => Ok(()),
        [dimension, dimensions @ ..] => {
            made.push(dimension.copy()?)?;
            push_copies(made, dimensions)
        }
    }
}

/// The left's dimensions, to the first of which the length of the right's is added.
pub(crate) fn lengthened(
    left: &List<Dimension>,
    right: &List<Dimension>,
) -> Result<List<Dimension>, Memory>
    ensures { IfOk result (λ made. made ≡ lengthened_dimensions left.now right.now) }
{
    let mut made = left.another();
    match left.as_slice() {
        [] => {}
        [l, rest @ ..] => {
            match right.as_slice() {
                [] => made.push(l.copy()?)?,
                [r, ..] => made.push(longer(l, r)?)?,
            }
            push_copies(&mut made, rest)?;
        }
    }
    Ok(made)
}
