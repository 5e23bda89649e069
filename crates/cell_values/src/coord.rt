//! Coordinates of cells and chunks, and the order of cells.
ghost use Rattle.std.specs.Prelude.{◌≡◌, ◌≤◌, pos, length, slice_index_or, IsOk, IfOk};
ghost use Rattle.std.specs.Ordering.{nat_cmp};
ghost use Rattle.std.specs.Cmp.Lexicographic.{slice_cmp};
ghost use Rattle.cell_values.specs.RowMajor.{row_order};

use crate::{Copies, Memory};
use arrayvec::ArrayVec;
use std::cmp::Ordering;

/// Where a cell is: a number for each dimension, the first dimension first.
pub type Coord = ArrayVec<i64, 6>;

/// Which chunk: for each dimension the number of chunks before it.
pub type ChunkAt = ArrayVec<u64, 6>;

/// How far chunks reach into their neighbours, for each dimension.
pub type Margins = ArrayVec<u64, 6>;

/// The order of cells in an array: the first dimension in which they differ decides.
pub fn row_major(a: &Coord, b: &Coord) -> Ordering
    ensures { result ≡ row_order a.now.items b.now.items }
{
    a.as_slice().cmp(b.as_slice())
}

/// The order of the chunks of an array: the first dimension in which their numbers differ decides.
pub fn compare_numbers(a: &ChunkAt, b: &ChunkAt) -> Ordering
    ensures { result ≡ slice_cmp nat_cmp a.now.items b.now.items }
{
    a.as_slice().cmp(b.as_slice())
}

/// The number of a coordinate in a dimension, 0 where it has none.
pub fn number_at(at: &Coord, place: usize) -> i64
    ensures { result ≡ slice_index_or at.now.items place (pos 0) }
{
    match at.as_slice().get(place) {
        Some(number) => *number,
        None => 0,
    }
}

/// The coordinate of these numbers.
pub fn coord_of(numbers: &[i64]) -> Coord
    requires { length numbers.now ≤ 6 }
    ensures { result.items ≡ numbers.now }
{
    let mut at = Coord::new();
    for number in numbers {
        at.push(*number);
    }
    at
}

/// The same coordinate once more.
pub fn copy_coord(at: &Coord) -> Coord
    ensures { result ≡ at.now }
{
    coord_of(at.as_slice())
}

/// The same numbers of chunks, or the same margins, once more.
pub fn copy_numbers(at: &ChunkAt) -> ChunkAt
    ensures { result ≡ at.now }
{
    let mut copy = ChunkAt::new();
    for number in at.as_slice() {
        copy.push(*number);
    }
    copy
}

impl Copies for Coord {
    fn copy(&self) -> Result<Coord, Memory>
        ensures value { IfOk result (λ copy. copy ≡ self.now) }
        ensures succeeds { IsOk result }
    {
        Ok(copy_coord(self))
    }
}

impl Copies for ChunkAt {
    fn copy(&self) -> Result<ChunkAt, Memory>
        ensures value { IfOk result (λ copy. copy ≡ self.now) }
        ensures succeeds { IsOk result }
    {
        Ok(copy_numbers(self))
    }
}
