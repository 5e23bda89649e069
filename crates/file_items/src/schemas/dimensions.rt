//! Reading dimensions.
ghost use Rattle.std.specs.Prelude.{◌≡◌, ◌+◌, ◌*◌, ◌^◌, ◌-◌, ◌==◌, ◌++◌, [], min, nat_le};
ghost use Rattle.std.specs.List.{list_any};
ghost use Rattle.std.specs.Str.{bytes_eq};
ghost use Rattle.file_items.specs.Items.{IsRead, repeat};
ghost use Rattle.cell_values.specs.Schemas.{attribute_names, dimension_names, is_among, is_bound, frame_size};
ghost use Rattle.file_items.specs.Table.{signed_at, range_at, is_overlap, cut_at, extent_at, dimension_at, with_last, dimensions_at};

use crate::bytes::{Stop, u8_at, u64_at};
use crate::schemas::attributes::is_attribute;
use crate::schemas::names::{is_same, name};
use cell_values::{Attribute, Dimension, List, Name};
use std::alloc::Global;

/// The greatest bound; the least is its negative.
const GREATEST_BOUND: u64 = 4611686018427387903;

/// How many places a chunk may have, those of the overlap too.
const MAX_FRAME: u64 = 281474976710656;

#[tactic(auto, unfolding(crate::specs::Table::signed_at))]
fn signed(bytes: &[u8]) -> Result<(i64, &[u8]), Stop>
    ensures { IsRead (λ x. (x.0, x.1.now)) result (signed_at bytes.now) }
{
    let (number, rest) = u64_at(bytes)?;
    Ok((number.cast_signed(), rest))
}

fn is_bound(number: i64) -> bool
    ensures { result ≡ is_bound number }
{
    number.unsigned_abs() <= GREATEST_BOUND
}

/// The bounds of a dimension.
#[tactic(auto, unfolding(crate::specs::Table::range_at))]
fn range(bytes: &[u8]) -> Result<((i64, i64), &[u8]), Stop>
    ensures { IsRead (λ x. (record { lo = x.0.0; hi = x.0.1 }, x.1.now)) result (range_at bytes.now) }
{
    let (lo, rest) = signed(bytes)?;
    if !is_bound(lo) {
        return Err(Stop::Left(bytes.len()));
    }
    let (hi, last) = signed(rest)?;
    if !(is_bound(hi) && lo <= hi) {
        return Err(Stop::Left(rest.len()));
    }
    Ok(((lo, hi), last))
}

/// How many places a chunk has along a dimension with its overlap, or 2^64 - 1 where they are more.
fn length_with(chunk: u64, overlap: u64) -> u64
    ensures { result ≡ min (chunk + 2 * overlap) (2 ^ 64 - 1) }
{
    chunk.saturating_add(overlap.saturating_mul(2))
}

/// How many places a chunk has with its overlap, or 2^64 - 1 where they are more.
#[tactic(auto, using(crate::proofs::Frames::frame_more))]
fn frame_size(dimensions: &[Dimension]) -> u64
    ensures { result ≡ min (frame_size dimensions.now) (2 ^ 64 - 1) }
{
    let mut size: u64 = 1;
    for dimension in dimensions {
        size = size.saturating_mul(length_with(dimension.chunk, dimension.overlap));
    }
    size
}

#[tactic(auto, using(crate::proofs::Frames::frame_within))]
fn frame_fits(before: &List<Dimension>, chunk: u64, overlap: u64) -> bool
    ensures { result ≡ nat_le (frame_size before.now * (chunk + 2 * overlap)) 281474976710656 }
{
    frame_size(before.as_slice()).saturating_mul(length_with(chunk, overlap)) <= MAX_FRAME
}

fn is_overlap(before: &List<Dimension>, last: bool, chunk: u64, overlap: u64) -> bool
    ensures { result ≡ is_overlap before.now last chunk overlap }
{
    overlap <= chunk && (!last || frame_fits(before, chunk, overlap))
}

/// The length of a chunk and the overlap, behind other dimensions.
#[tactic(auto, unfolding(crate::specs::Table::cut_at))]
fn cut<'a>(
    before: &List<Dimension>,
    last: bool,
    bytes: &'a [u8],
) -> Result<((u64, u64), &'a [u8]), Stop>
    ensures { IsRead (λ x. (record { chunk = x.0.0; overlap = x.0.1 }, x.1.now)) result (cut_at before.now last bytes.now) }
{
    let (chunk, rest) = u64_at(bytes)?;
    if chunk == 0 {
        return Err(Stop::Left(bytes.len()));
    }
    let (overlap, end) = u64_at(rest)?;
    if !is_overlap(before, last, chunk, overlap) {
        return Err(Stop::Left(rest.len()));
    }
    Ok(((chunk, overlap), end))
}

fn any_dimension(dimensions: &List<Dimension>, name: &Name) -> bool
    ensures { result ≡ list_any (λ dimension. bytes_eq name.now dimension.name) dimensions.now }
{
    dimensions
        .as_slice()
        .iter()
        .any(|dimension| is_same(name, &dimension.name))
}

fn is_dimension(dimensions: &List<Dimension>, name: &Name) -> bool
    ensures { result ≡ is_among name.now (dimension_names dimensions.now) }
{
    any_dimension(dimensions, name)
}

/// Whether an attribute or a dimension has this name.
#[tactic(auto, using(crate::proofs::Among::among_both))]
fn is_used(attributes: &List<Attribute>, dimensions: &List<Dimension>, name: &Name) -> bool
    ensures { result ≡ is_among name.now (attribute_names attributes.now ++ dimension_names dimensions.now) }
{
    is_attribute(attributes, name) || is_dimension(dimensions, name)
}

/// A dimension behind others, with so many after it.
#[tactic(auto, unfolding(crate::specs::Table::dimension_at, crate::specs::Table::extent_at))]
fn dimension<'a>(
    alloc: Global,
    attributes: &List<Attribute>,
    before: &List<Dimension>,
    after: u8,
    bytes: &'a [u8],
) -> Result<(Dimension, &'a [u8]), Stop>
    ensures { IsRead (λ x. (x.0, x.1.now)) result (dimension_at (attribute_names attributes.now) before.now after bytes.now) }
{
    let (name, rest) = name(alloc, bytes)?;
    if is_used(attributes, before, &name) {
        return Err(Stop::Left(bytes.len()));
    }
    let ((lo, hi), rest) = range(rest)?;
    let ((chunk, overlap), rest) = cut(before, after == 0, rest)?;
    Ok((
        Dimension {
            name,
            lo,
            hi,
            chunk,
            overlap,
        },
        rest,
    ))
}

fn dimensions_from<'a>(
    alloc: Global,
    attributes: &List<Attribute>,
    count: u8,
    bytes: &'a [u8],
) -> Result<(List<Dimension>, &'a [u8]), Stop>
    ensures { IsRead (λ x. (x.0, x.1.now)) result (repeat (dimension_at (attribute_names attributes.now)) with_last count [] bytes.now) }
{
    let mut dimensions = List::new(alloc);
    let mut rest = bytes;
    for index in 0..count {
        let (dimension, after) = dimension(
            alloc,
            attributes,
            &dimensions,
            count - index - 1,
            rest,
        )?;
        dimensions.push(dimension)?;
        rest = after;
    }
    Ok((dimensions, rest))
}

/// The dimensions of a schema with these attributes, with their count before them.
#[tactic(auto, unfolding(crate::specs::Table::dimensions_at))]
pub(crate) fn dimensions<'a>(
    alloc: Global,
    attributes: &List<Attribute>,
    bytes: &'a [u8],
) -> Result<(List<Dimension>, &'a [u8]), Stop>
    ensures { IsRead (λ x. (x.0, x.1.now)) result (dimensions_at (attribute_names attributes.now) bytes.now) }
{
    let (count, rest) = u8_at(bytes)?;
    if !(1 <= count && count <= 6) {
        return Err(Stop::Left(bytes.len()));
    }
    dimensions_from(alloc, attributes, count, rest)
}
