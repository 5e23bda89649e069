//! Reading the numbers of chunks.
ghost use Rattle.std.specs.Prelude.{◌≡◌, ◌≤◌, ◌==◌, int_le, drop, length};
ghost use Rattle.std.specs.Option.{option_copied};
ghost use Rattle.array_geom.specs.Geometry.{first_in};
ghost use Rattle.file_items.specs.Items.{IsRead};
ghost use Rattle.backup_format.specs.Table.{has_place, is_placed, placed_number, numbers_at};

use cell_values::{ChunkAt, Dimension};
use chunk_map::{is_number, next_number};
use file_items::{Stop, u64_at};

/// Whether a chunk's part of one dimension has a place within the bounds.
fn has_side(d: &Dimension, k: u64) -> bool
    ensures { result ≡ int_le (first_in d.now k) d.now.hi }
{
    d.lo <= d.hi
        && match k.checked_mul(d.chunk) {
            Some(before) => before <= d.hi.abs_diff(d.lo),
            None => false,
        }
}

/// Whether the chunk has a place within the bounds of the first of some dimensions.
fn has_place(dims: &[Dimension], n: u64) -> bool
    ensures { result ≡ has_place dims.now n }
{
    match dims {
        [] => false,
        [d, ..] => has_side(d, n),
    }
}

fn is_placed(before: Option<&[u64]>, dims: &[Dimension], last: bool, n: u64) -> bool
    ensures { result ≡ is_placed (record { before = option_copied before.entry; dims = dims.now }) last n }
{
    is_number(before, last, n) && has_place(dims, n)
}

#[tactic(auto, unfolding(crate::specs::Table::placed_number))]
fn number<'a>(
    before: Option<&[u64]>,
    dims: &[Dimension],
    after: usize,
    bytes: &'a [u8],
) -> Result<(u64, &'a [u8]), Stop>
    ensures { IsRead (λ x. (x.0, x.1.now)) result (placed_number (record { before = option_copied before.entry; dims = dims.now }) after bytes.now) }
{
    let (number, rest) = match u64_at(bytes) {
        Ok(read) => read,
        Err(stop) => return Err(stop),
    };
    if !is_placed(before, dims, after == 0, number) {
        return Err(Stop::Left(bytes.len()));
    }
    Ok((number, rest))
}

/// The dimensions behind the first one.
fn behind(dims: &[Dimension]) -> &[Dimension]
    ensures { result.now ≡ drop 1 dims.now }
{
    match dims {
        [] => dims,
        [_, rest @ ..] => rest,
    }
}

/// The number of a chunk whose core holds a coordinate, behind the number before.
pub(crate) fn numbers<'a>(
    dims: &[Dimension],
    before: Option<&[u64]>,
    bytes: &'a [u8],
) -> Result<(ChunkAt, &'a [u8]), Stop>
    requires { length dims.now ≤ 6 }
    ensures { IsRead (λ x. (x.0.items, x.1.now)) result (numbers_at dims.now (option_copied before.entry) bytes.now) }
{
    let mut at = ChunkAt::new();
    let mut left = before;
    let mut sides = dims;
    let mut rest = bytes;
    for index in 0..dims.len() {
        match number(left, sides, dims.len() - index - 1, rest) {
            Ok((number, after)) => {
                at.push(number);
                left = next_number(left, number);
                sides = behind(sides);
                rest = after;
            }
            Err(stop) => return Err(stop),
        }
    }
    Ok((at, rest))
}
