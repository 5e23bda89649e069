//! The dimensions of results.
ghost use Rattle.std.specs.Prelude.{◌≡◌, ◌++◌, ◌∷◌, ◌==◌, [], ◌-ℤ◌, if◌then◌else◌, map, IfOk, OnOk};
ghost use Rattle.std.specs.Int.{w64, saturate_signed, int_min, int_max};
ghost use Rattle.std.specs.List.{list_any};
ghost use Rattle.logical_plan.specs.Boxes.{by_pairs};
ghost use Rattle.logical_plan.specs.BoxOps.{items_but, fixed_places};
ghost use Rattle.logical_plan.specs.Groups.{block};
ghost use Rattle.logical_plan.specs.PlanSchema.{from_zero, subarray_dimensions, in_blocks, without_overlap, one_place, group_dimensions};

use crate::places::at_places;
use cell_values::{Dimension, List, Memory, Name};
use logical_plan::Fixed;
use std::alloc::Global;

fn part_length(dimension: &Dimension, low: i64, high: i64) -> i64
    ensures { result ≡ saturate_signed w64 (int_min dimension.now.hi high -ℤ int_max dimension.now.lo low) }
{
    dimension.hi.min(high).saturating_sub(dimension.lo.max(low))
}

fn moved_to_zero(dimension: &Dimension, low: i64, high: i64) -> Result<Dimension, Memory>
    ensures { IfOk result (λ moved. moved ≡ from_zero dimension.now low high) }
{
    Ok(Dimension {
        name: dimension.name.copy()?,
        lo: 0,
        hi: part_length(dimension, low, high),
        chunk: dimension.chunk,
        overlap: dimension.overlap,
    })
}

fn push_part(
    parts: &mut List<Dimension>,
    dimension: &Dimension,
    low: i64,
    high: i64,
) -> Result<(), Memory>
    ensures { OnOk result (parts.new ≡ parts.old ++ from_zero dimension.now low high ∷ []) }
{
    parts.push(moved_to_zero(dimension, low, high)?)
}

/// Adds the part of each dimension between its numbers in `lo` and `hi`, moved to 0.
pub(crate) fn push_parts(
    parts: &mut List<Dimension>,
    dimensions: &[Dimension],
    lo: &[i64],
    hi: &[i64],
) -> Result<(), Memory>
    ensures { OnOk result (parts.new ≡ parts.old ++ subarray_dimensions dimensions.now lo.now hi.now) }
{
    match dimensions {
        [] => Ok(()),
        [dimension, dimensions @ ..] => match lo {
            [] => Ok(()),
            [low, lo @ ..] => match hi {
                [] => Ok(()),
                [high, hi @ ..] => {
                    push_part(parts, dimension, *low, *high)?;
                    push_parts(parts, dimensions, lo, hi)
                }
            },
        },
    }
}

fn last_block(lo: i64, size: u64, hi: i64) -> i64
    ensures { result ≡ saturate_signed w64 (block lo size hi) }
{
    lo.saturating_add_unsigned(hi.abs_diff(lo).checked_div(size).unwrap_or(0))
}

fn blocks_along(dimension: &Dimension, size: u64) -> Result<Dimension, Memory>
    ensures { IfOk result (λ blocks. blocks ≡ in_blocks dimension.now size) }
{
    Ok(Dimension {
        name: dimension.name.copy()?,
        lo: dimension.lo,
        hi: last_block(dimension.lo, size, dimension.hi),
        chunk: dimension.chunk,
        overlap: 0,
    })
}

/// Adds the blocks along each dimension.
pub(crate) fn push_blocks(
    blocks: &mut List<Dimension>,
    dimensions: &[Dimension],
    sizes: &[u64],
) -> Result<(), Memory>
    ensures { OnOk result (blocks.new ≡ blocks.old ++ by_pairs in_blocks dimensions.now sizes.now) }
{
    match dimensions {
        [] => Ok(()),
        [dimension, dimensions @ ..] => match sizes {
            [] => Ok(()),
            [size, sizes @ ..] => {
                blocks.push(blocks_along(dimension, *size)?)?;
                push_blocks(blocks, dimensions, sizes)
            }
        },
    }
}

fn is_fixed(fixed: &List<Fixed>, place: usize) -> bool
    ensures { result ≡ list_any (λ f. f.dimension == place) fixed.now }
{
    fixed
        .as_slice()
        .iter()
        .any(|f| f.dimension as usize == place)
}

fn push_unless(
    dimensions: &mut List<Dimension>,
    is_left_out: bool,
    dimension: &Dimension,
) -> Result<(), Memory>
    ensures { OnOk result (dimensions.new ≡ dimensions.old ++ (if is_left_out then [] else dimension.now ∷ [])) }
{
    if is_left_out {
        Ok(())
    } else {
        dimensions.push(dimension.copy()?)
    }
}

/// The dimensions that are not held at a number.
pub(crate) fn free_dimensions(
    dimensions: &List<Dimension>,
    fixed: &List<Fixed>,
) -> Result<List<Dimension>, Memory>
    ensures { IfOk result (λ free. free ≡ items_but (fixed_places fixed.now) 0 dimensions.now) }
{
    let mut free = List::with_capacity(dimensions.allocator(), dimensions.len())?;
    for (place, dimension) in dimensions.as_slice().iter().enumerate() {
        push_unless(&mut free, is_fixed(fixed, place), dimension)?;
    }
    Ok(free)
}

/// The one dimension of an array with a single place.
fn single_place(alloc: Global) -> Result<Dimension, Memory>
    ensures { IfOk result (λ dimension. dimension ≡ one_place) }
{
    let Some(name) = Name::new(List::from_slice(alloc, b"i".as_slice())?) else {
        unreachable!()
    };
    Ok(Dimension {
        name,
        lo: 0,
        hi: 0,
        chunk: 1,
        overlap: 0,
    })
}

fn copy_without_overlap(dimension: &Dimension) -> Result<Dimension, Memory>
    ensures { IfOk result (λ copy. copy ≡ without_overlap dimension.now) }
{
    Ok(Dimension {
        name: dimension.name.copy()?,
        lo: dimension.lo,
        hi: dimension.hi,
        chunk: dimension.chunk,
        overlap: 0,
    })
}

fn without_overlaps(dimensions: &List<Dimension>) -> Result<List<Dimension>, Memory>
    ensures { IfOk result (λ copies. copies ≡ map without_overlap dimensions.now) }
{
    let mut copies = List::with_capacity(dimensions.allocator(), dimensions.len())?;
    for dimension in dimensions.as_slice() {
        copies.push(copy_without_overlap(dimension)?)?;
    }
    Ok(copies)
}

fn one_dimension(alloc: Global) -> Result<List<Dimension>, Memory>
    ensures { IfOk result (λ dimensions. dimensions ≡ one_place ∷ []) }
{
    let mut dimensions = List::new(alloc);
    dimensions.push(single_place(alloc)?)?;
    Ok(dimensions)
}

/// The dimensions at these places, or a single place where none is named.
pub(crate) fn dimensions_of_groups(
    alloc: Global,
    dimensions: &List<Dimension>,
    places: &List<u32>,
) -> Result<List<Dimension>, Memory>
    ensures { IfOk result (λ groups. groups ≡ group_dimensions places.now dimensions.now) }
{
    match places.as_slice() {
        [] => one_dimension(alloc),
        _ => without_overlaps(&at_places(dimensions, places)?),
    }
}
