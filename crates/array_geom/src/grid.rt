//! Boxes whose coordinates are numbered in row-major order.
ghost use Rattle.std.specs.Prelude.{◌≡◌, ℤ, ◌+◌, ◌*◌, ◌%◌, ◌<◌, ◌≤◌, ◌^◌, pos, ◌≤ℤ◌, ◌<ℤ◌, ◌+ℤ◌, ◌-ℤ◌, ◌++◌, length, unsigned_abs, IsTrue};
ghost use Rattle.array_geom.specs.Geometry.{coordinate_in, position_in, volume};
ghost use Rattle.array_geom.specs.Inner.Ranges.{IsGrid, AreLow, AreLengths, is_in_grid};

use array_rows::Coord;
use arrayvec::ArrayVec;

/// How long a box is in each dimension.
pub type Lengths = ArrayVec<u64, 6>;

/// A box whose coordinates have places, from 0 and in row-major order.
#[derive(Drop)]
pub struct Grid {
    /// Its lowest coordinate.
    pub low: Coord,
    pub lengths: Lengths,
}

/// The product of the lengths.
#[tactic(auto, using(crate::proofs::PlaceLaws::some))]
fn volume_of(lengths: &[u64]) -> u64
    requires lengths { AreLengths lengths.now }
    requires small { volume lengths.now ≤ 2 ^ 48 }
    ensures value { result ≡ volume lengths.now }
    ensures some { 0 < result }
    ensures small { result ≤ 2 ^ 48 }
{
    match lengths {
        [] => 1,
        [n, rest @ ..] => *n * volume_of(rest),
    }
}

/// A number this far above another.
fn above(low: i64, steps: u64) -> i64
    requires low { low ≤ℤ pos (2 ^ 62) }
    requires steps { steps ≤ 2 ^ 48 }
    ensures { result ≡ low +ℤ pos steps }
{
    low + steps as i64
}

/// How far a number is above another, which is less than `count`.
fn steps_above(low: i64, number: i64, count: u64) -> u64
    requires count { count ≤ 2 ^ 48 }
    requires low { low ≤ℤ number }
    requires high { number <ℤ (low +ℤ pos count) }
    ensures value { result ≡ unsigned_abs (number -ℤ low) }
    ensures below { result < count }
{
    (number - low) as u64
}

/// The place in a box of `count` rows of a place in one of its rows.
#[tactic(auto, using(crate::proofs::PlaceLaws::row_below))]
fn place_in_rows(row: u64, row_size: u64, place: u64, count: u64) -> u64
    requires row { row < count }
    requires place { place < row_size }
    requires small { count * row_size ≤ 2 ^ 48 }
    ensures value { result ≡ row * row_size + place }
    ensures below { result < count * row_size }
{
    row * row_size + place
}

/// Where a place stands in its row.
fn place_in_row(place: u64, row_size: u64) -> u64
    requires { 0 < row_size }
    ensures value { result ≡ place % row_size }
    ensures below { result < row_size }
{
    place % row_size
}

fn push_place(out: &mut Coord, low: &[i64], lengths: &[u64], position: u64)
    requires room { length out.old.items + length low.now ≤ 6 }
    requires same { length low.now ≡ length lengths.now }
    requires low { AreLow low.now }
    requires lengths { AreLengths lengths.now }
    requires small { volume lengths.now ≤ 2 ^ 48 }
    requires inside { position < volume lengths.now }
    ensures { out.new.items ≡ out.old.items ++ coordinate_in low.now lengths.now position }
{
    match lengths {
        [] => {}
        [_, lengths @ ..] => match low {
            [] => {}
            [l, low @ ..] => {
                let row_size = volume_of(lengths);
                out.push(above(*l, position / row_size));
                push_place(out, low, lengths, place_in_row(position, row_size));
            }
        },
    }
}

/// How many coordinates a box has, and the place of one.
fn position_of(low: &[i64], lengths: &[u64], at: &[i64]) -> (u64, u64)
    requires low { AreLow low.now }
    requires lengths { AreLengths lengths.now }
    requires small { volume lengths.now ≤ 2 ^ 48 }
    requires inside { IsTrue (is_in_grid low.now lengths.now at.now) }
    ensures volume { result.0 ≡ volume lengths.now }
    ensures place { result.1 ≡ position_in low.now lengths.now at.now }
    ensures below { result.1 < volume lengths.now }
{
    match lengths {
        [] => (1, 0),
        [n, lengths @ ..] => match low {
            [] => (1, 0),
            [l, low @ ..] => match at {
                [] => (1, 0),
                [x, at @ ..] => {
                    let (row_size, place) = position_of(low, lengths, at);
                    let row = steps_above(*l, *x, *n);
                    (*n * row_size, place_in_rows(row, row_size, place, *n))
                }
            },
        },
    }
}

impl Grid {
    /// How many coordinates it has.
    pub fn volume(&self) -> u64
        requires { IsGrid self.now }
        ensures { result ≡ volume self.now.lengths.items }
    {
        volume_of(self.lengths.as_slice())
    }

    /// The coordinate at a place.
    pub fn place(&self, position: u64) -> Coord
        requires grid { IsGrid self.now }
        requires inside { position < volume self.now.lengths.items }
        ensures { result.items ≡ coordinate_in self.now.low.items self.now.lengths.items position }
    {
        let mut at = Coord::new();
        push_place(
            &mut at,
            self.low.as_slice(),
            self.lengths.as_slice(),
            position,
        );
        at
    }

    /// The place of a coordinate.
    pub fn position(&self, at: &Coord) -> u64
        requires grid { IsGrid self.now }
        requires inside { IsTrue (is_in_grid self.now.low.items self.now.lengths.items at.now.items) }
        ensures value { result ≡ position_in self.now.low.items self.now.lengths.items at.now.items }
        ensures below { result < volume self.now.lengths.items }
    {
        position_of(self.low.as_slice(), self.lengths.as_slice(), at.as_slice()).1
    }
}
