//! Which chunks have a coordinate in their frame.
ghost use Rattle.std.specs.Prelude.{◌≡◌, ◌+◌, ◌-◌, ◌/◌, ◌≤◌, ◌^◌, ◌≤ℤ◌, ◌-ℤ◌, ◌++◌, map, length, unsigned_abs, IsTrue, false};
ghost use Rattle.std.specs.Ordering.{is_lt};
ghost use Rattle.cell_values.specs.Schemas.{IsValid};
ghost use Rattle.array_rows.specs.Boxes.{bounds_of, is_between, is_inside};
ghost use Rattle.array_geom.specs.Link.{number_order};
ghost use Rattle.array_geom.specs.Inner.Ranges.{AreMargins, AreNear, IsNear};
ghost use Rattle.chunk_cells.specs.Frames.{HasFrames};
ghost use Rattle.chunk_cells.specs.Inner.Near.{lies_between, near_high, near_low, next_between};
ghost use Rattle.chunk_cells.specs.Inner.Reach.{Reaches};

use cell_values::{ChunkAt, Coord, Dimension, Margins, Schema};

/// How far a number is above the lowest one of its dimension.
fn steps_in(d: &Dimension, number: i64) -> u64
    requires near { IsNear d.now }
    requires low { d.now.lo ≤ℤ number }
    requires high { number ≤ℤ d.now.hi }
    ensures value { result ≡ unsigned_abs (number -ℤ d.now.lo) }
    ensures small { result ≤ 2 ^ 63 }
{
    (number - d.lo) as u64
}

fn first_near(d: &Dimension, margin: u64, number: i64) -> u64
    requires near { IsNear d.now }
    requires low { d.now.lo ≤ℤ number }
    requires high { number ≤ℤ d.now.hi }
    ensures { result ≡ (unsigned_abs (number -ℤ d.now.lo) - margin) / d.now.chunk }
{
    steps_in(d, number).saturating_sub(margin) / d.chunk
}

fn last_near(d: &Dimension, margin: u64, number: i64) -> u64
    requires near { IsNear d.now }
    requires low { d.now.lo ≤ℤ number }
    requires high { number ≤ℤ d.now.hi }
    requires margin { margin ≤ 2 ^ 48 }
    ensures { result ≡ (unsigned_abs (number -ℤ d.now.lo) + margin) / d.now.chunk }
{
    (steps_in(d, number) + margin) / d.chunk
}

fn push_first_near(out: &mut ChunkAt, dims: &[Dimension], margins: &[u64], at: &[i64])
    requires room { length out.old.items + length dims.now ≤ 6 }
    requires near { AreNear dims.now }
    requires inside { IsTrue (is_between (map (λ d. d.lo) dims.now) (map (λ d. d.hi) dims.now) at.now) }
    ensures { out.new.items ≡ out.old.items ++ near_low dims.now margins.now at.now }
{
    match dims {
        [] => {}
        [d, dims @ ..] => match margins {
            [] => {}
            [margin, margins @ ..] => match at {
                [] => {}
                [x, at @ ..] => {
                    out.push(first_near(d, *margin, *x));
                    push_first_near(out, dims, margins, at);
                }
            },
        },
    }
}

fn push_last_near(out: &mut ChunkAt, dims: &[Dimension], margins: &[u64], at: &[i64])
    requires room { length out.old.items + length dims.now ≤ 6 }
    requires near { AreNear dims.now }
    requires margins { AreMargins dims.now margins.now }
    requires inside { IsTrue (is_between (map (λ d. d.lo) dims.now) (map (λ d. d.hi) dims.now) at.now) }
    ensures { out.new.items ≡ out.old.items ++ near_high dims.now margins.now at.now }
{
    match dims {
        [] => {}
        [d, dims @ ..] => match margins {
            [] => {}
            [margin, margins @ ..] => match at {
                [] => {}
                [x, at @ ..] => {
                    out.push(last_near(d, *margin, *x));
                    push_last_near(out, dims, margins, at);
                }
            },
        },
    }
}

/// Whether each number of a chunk lies between these.
pub(crate) fn lies_between(low: &[u64], high: &[u64], chunk: &[u64]) -> bool
    ensures { result ≡ lies_between low.now high.now chunk.now }
{
    match low {
        [] => high.is_empty() && chunk.is_empty(),
        [l, low @ ..] => match high {
            [] => false,
            [h, high @ ..] => match chunk {
                [] => false,
                [k, chunk @ ..] => *l <= *k && *k <= *h && lies_between(low, high, chunk),
            },
        },
    }
}

fn push_each(out: &mut ChunkAt, numbers: &[u64])
    requires { length out.old.items + length numbers.now ≤ 6 }
    ensures { out.new.items ≡ out.old.items ++ numbers.now }
{
    for number in numbers {
        out.push(*number);
    }
}

/// Whether a number comes after the highest one.
fn is_past(high: &[u64], chunk: &[u64]) -> bool
    ensures { result ≡ is_lt (number_order high.now chunk.now) }
{
    high.cmp(chunk).is_lt()
}

fn push_next(out: &mut ChunkAt, low: &[u64], high: &[u64], chunk: &[u64])
    requires room { length out.old.items + length low.now ≤ 6 }
    requires not_after { is_lt (number_order high.now chunk.now) ≡ false }
    ensures { out.new.items ≡ out.old.items ++ next_between low.now high.now chunk.now }
{
    match low {
        [] => {}
        [l, lows @ ..] => match high {
            [] => {}
            [_, highs @ ..] => match chunk {
                [] => {}
                [k, rest @ ..] => {
                    if *k < *l {
                        push_each(out, low);
                    } else if is_past(highs, rest) {
                        out.push(*k + 1);
                        push_each(out, lows);
                    } else {
                        out.push(*k);
                        push_next(out, lows, highs, rest);
                    }
                }
            },
        },
    }
}

/// The numbers between which those of the chunks lie that have a coordinate in their frame.
#[derive(Drop)]
pub(crate) struct Reached {
    pub low: ChunkAt,
    pub high: ChunkAt,
}

#[tactic(auto, using(crate::proofs::FrameLaws::near_dims))]
fn lowest(schema: &Schema, margins: &Margins, at: &Coord) -> ChunkAt
    requires frames { HasFrames schema.now margins.now.items }
    requires inside { IsTrue (is_inside (bounds_of schema.now.dimensions) at.now.items) }
    ensures { result.items ≡ near_low schema.now.dimensions margins.now.items at.now.items }
{
    let dims = schema.dimensions.as_slice();
    let mut low = ChunkAt::new();
    push_first_near(&mut low, dims, margins.as_slice(), at.as_slice());
    low
}

#[tactic(auto, using(crate::proofs::FrameLaws::near_dims, crate::proofs::FrameLaws::near_margins))]
fn highest(schema: &Schema, margins: &Margins, at: &Coord) -> ChunkAt
    requires frames { HasFrames schema.now margins.now.items }
    requires inside { IsTrue (is_inside (bounds_of schema.now.dimensions) at.now.items) }
    ensures { result.items ≡ near_high schema.now.dimensions margins.now.items at.now.items }
{
    let dims = schema.dimensions.as_slice();
    let margins = margins.as_slice();
    let mut high = ChunkAt::new();
    push_last_near(&mut high, dims, margins, at.as_slice());
    high
}

/// The box of the numbers of the chunks that have a coordinate in their frame.
pub(crate) fn numbers_near(schema: &Schema, margins: &Margins, at: &Coord) -> Reached
    requires frames { HasFrames schema.now margins.now.items }
    requires inside { IsTrue (is_inside (bounds_of schema.now.dimensions) at.now.items) }
    ensures { Reaches schema.now.dimensions margins.now.items at.now.items result }
{
    Reached {
        low: lowest(schema, margins, at),
        high: highest(schema, margins, at),
    }
}

/// The first number of the box that does not come before one, which is not after the box.
pub(crate) fn next_near(near: &Reached, chunk: &ChunkAt) -> ChunkAt
    requires { is_lt (number_order near.now.high.items chunk.now.items) ≡ false }
    ensures { result.items ≡ next_between near.now.low.items near.now.high.items chunk.now.items }
{
    let low = near.low.as_slice();
    let high = near.high.as_slice();
    let mut next = ChunkAt::new();
    push_next(&mut next, low, high, chunk.as_slice());
    next
}
