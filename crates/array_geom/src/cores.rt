//! The cores of chunks.
ghost use Rattle.std.specs.Prelude.{◌≡◌, ◌+◌, ◌*◌, ◌/◌, ◌≤◌, ◌<◌, ℕ, ℤ, pos, ◌≤ℤ◌, ◌+ℤ◌, ◌-ℤ◌, ◌++◌};
ghost use Rattle.std.specs.Prelude.{List as Items, filter, map, length, int_le, unsigned_abs, IsTrue, IfOk};
ghost use Rattle.std.specs.List.{AllByRecursion};
ghost use Rattle.std.specs.Int.{int_min, int_max};
ghost use Rattle.array_rows.specs.Schemas.{IsValid};
ghost use Rattle.array_rows.specs.Boxes.{bounds_of, by_pairs, is_inside, is_between};
ghost use Rattle.array_geom.specs.Areas.{are_ordered};
ghost use Rattle.array_geom.specs.Geometry.{chunk_of, core, core_meets, first_in, has_core, last_in};
ghost use Rattle.array_geom.specs.Inner.Ranges.{IsNear, AreNear};

use array_rows::{Bounds, ChunkAt, Coord, Dimension, List, Memory, Schema, copy_numbers};
use std::alloc::Global;

/// The number of the chunk that has a place in its core.
fn number_of(d: &Dimension, x: i64) -> u64
    requires near { IsNear d.now }
    requires low { d.now.lo ≤ℤ x }
    requires high { x ≤ℤ d.now.hi }
    ensures { result ≡ unsigned_abs (x -ℤ d.now.lo) / d.now.chunk }
{
    (x - d.lo) as u64 / d.chunk
}

/// The number of the last chunk.
fn last_number(d: &Dimension) -> u64
    requires { IsNear d.now }
    ensures { result ≡ unsigned_abs (d.now.hi -ℤ d.now.lo) / d.now.chunk }
{
    number_of(d, d.hi)
}

/// The first place of a chunk.
pub(crate) fn first_of(d: &Dimension, k: u64) -> i64
    requires near { IsNear d.now }
    requires core { first_in d.now k ≤ℤ d.now.hi }
    ensures { result ≡ first_in d.now k }
{
    d.lo + (k * d.chunk) as i64
}

/// The last place of a chunk, whatever the bounds are.
pub(crate) fn last_of(d: &Dimension, k: u64) -> i64
    requires near { IsNear d.now }
    requires core { first_in d.now k ≤ℤ d.now.hi }
    ensures { result ≡ last_in d.now k }
{
    first_of(d, k) + (d.chunk - 1) as i64
}

/// Whether a chunk's part of one dimension has a place within the bounds.
fn has_side(d: &Dimension, k: u64) -> bool
    ensures { result ≡ int_le (first_in d.now k) d.now.hi }
{
    d.lo <= d.hi
        && match k.checked_mul(d.chunk) {
            Some(before) => before <= d.hi.abs_diff(d.lo),
            None => false,
        }
}

fn has_sides(dims: &[Dimension], chunk: &[u64]) -> bool
    ensures { result ≡ has_core dims.now chunk.now }
{
    match dims {
        [] => chunk.is_empty(),
        [d, dims @ ..] => match chunk {
            [] => false,
            [k, chunk @ ..] => has_side(d, *k) && has_sides(dims, chunk),
        },
    }
}

/// Whether the core of a chunk has a coordinate.
pub fn has_core(schema: &Schema, chunk: &ChunkAt) -> bool
    ensures { result ≡ has_core schema.now.dimensions chunk.now.items }
{
    has_sides(schema.dimensions.as_slice(), chunk.as_slice())
}

fn push_numbers(out: &mut ChunkAt, dims: &[Dimension], at: &[i64])
    requires room { length out.old.items + length dims.now ≤ 6 }
    requires near { AreNear dims.now }
    requires inside { IsTrue (is_between (map (λ d. d.lo) dims.now) (map (λ d. d.hi) dims.now) at.now) }
    ensures { out.new.items ≡ out.old.items ++ chunk_of dims.now at.now }
{
    match dims {
        [] => {}
        [d, dims @ ..] => match at {
            [] => {}
            [x, at @ ..] => {
                out.push(number_of(d, *x));
                push_numbers(out, dims, at);
            }
        },
    }
}

/// The number of the one chunk whose core has a coordinate within the bounds.
#[tactic(auto, using(crate::proofs::NearLemmas::near_slice))]
pub fn chunk_of(schema: &Schema, at: &Coord) -> ChunkAt
    requires valid { IsValid schema.now }
    requires inside { IsTrue (is_inside (bounds_of schema.now.dimensions) at.now.items) }
    ensures { result.items ≡ chunk_of schema.now.dimensions at.now.items }
{
    let dims = schema.dimensions.as_slice();
    let mut number = ChunkAt::new();
    push_numbers(&mut number, dims, at.as_slice());
    number
}

fn push_first(out: &mut Coord, dims: &[Dimension], chunk: &[u64])
    requires room { length out.old.items + length dims.now ≤ 6 }
    requires near { AreNear dims.now }
    requires core { IsTrue (has_core dims.now chunk.now) }
    ensures { out.new.items ≡ out.old.items ++ by_pairs first_in dims.now chunk.now }
{
    match dims {
        [] => {}
        [d, dims @ ..] => match chunk {
            [] => {}
            [k, chunk @ ..] => {
                out.push(first_of(d, *k));
                push_first(out, dims, chunk);
            }
        },
    }
}

fn push_last(out: &mut Coord, dims: &[Dimension], chunk: &[u64])
    requires room { length out.old.items + length dims.now ≤ 6 }
    requires near { AreNear dims.now }
    requires core { IsTrue (has_core dims.now chunk.now) }
    ensures { out.new.items ≡ out.old.items ++ by_pairs (λ d n. int_min d.hi (last_in d n)) dims.now chunk.now }
{
    match dims {
        [] => {}
        [d, dims @ ..] => match chunk {
            [] => {}
            [k, chunk @ ..] => {
                out.push(d.hi.min(last_of(d, *k)));
                push_last(out, dims, chunk);
            }
        },
    }
}

/// The coordinates that belong to a chunk.
#[tactic(auto, using(crate::proofs::NearLemmas::near_slice))]
pub fn core_box(schema: &Schema, chunk: &ChunkAt) -> Bounds
    requires valid { IsValid schema.now }
    requires core { IsTrue (has_core schema.now.dimensions chunk.now.items) }
    ensures { result ≡ core schema.now.dimensions chunk.now.items }
{
    let dims = schema.dimensions.as_slice();
    let mut lo = Coord::new();
    let mut hi = Coord::new();
    push_first(&mut lo, dims, chunk.as_slice());
    push_last(&mut hi, dims, chunk.as_slice());
    Bounds { lo, hi }
}

/// Whether two stretches of places share one.
fn share(first: i64, last: i64, lo: i64, hi: i64) -> bool
    ensures { result ≡ int_le (int_max first lo) (int_min last hi) }
{
    first.max(lo) <= last.min(hi)
}

/// Whether a chunk's part of one dimension has a place from `lo` to `hi` within the bounds.
#[tactic(auto, using(crate::proofs::CoreLaws::past_the_end, crate::proofs::CoreLaws::up_to_the_end))]
fn meets_side(d: &Dimension, k: u64, lo: i64, hi: i64) -> bool
    requires { IsNear d.now }
    ensures { result ≡ int_le (int_max (first_in d.now k) lo) (int_min (int_min d.now.hi (last_in d.now k)) hi) }
{
    if k > last_number(d) {
        return false;
    }
    share(first_of(d, k), d.hi.min(last_of(d, k)), lo, hi)
}

fn meets(dims: &[Dimension], chunk: &[u64], lo: &[i64], hi: &[i64]) -> bool
    requires { AreNear dims.now }
    ensures { result ≡ are_ordered (by_pairs int_max (by_pairs first_in dims.now chunk.now) lo.now)
        (by_pairs int_min (by_pairs (λ d n. int_min d.hi (last_in d n)) dims.now chunk.now) hi.now) }
{
    match dims {
        [] => true,
        [d, dims @ ..] => match chunk {
            [] => true,
            [k, chunk @ ..] => match lo {
                [] => hi.is_empty(),
                [l, lo @ ..] => match hi {
                    [] => false,
                    [h, hi @ ..] => meets_side(d, *k, *l, *h) && meets(dims, chunk, lo, hi),
                },
            },
        },
    }
}

#[tactic(auto, using(crate::proofs::NearLemmas::near_slice))]
fn core_meets(schema: &Schema, area: &Bounds, chunk: &ChunkAt) -> bool
    requires { IsValid schema.now }
    ensures { result ≡ core_meets schema.now.dimensions area.now chunk.now.items }
{
    let dims = schema.dimensions.as_slice();
    meets(
        dims,
        chunk.as_slice(),
        area.lo.as_slice(),
        area.hi.as_slice(),
    )
}

/// The listed chunks whose core has a coordinate of the area, in the list's order.
pub fn chunks_meeting(
    alloc: Global,
    schema: &Schema,
    area: &Bounds,
    listed: &[ChunkAt],
) -> Result<List<ChunkAt>, Memory>
    requires { IsValid schema.now }
    ensures { IfOk result (λ found. found ≡ filter (λ chunk. core_meets schema.now.dimensions area.now chunk.items) listed.now) }
{
    let mut found = List::new(alloc);
    for chunk in listed {
        if core_meets(schema, area, chunk) {
            found.push(copy_numbers(chunk))?;
        }
    }
    Ok(found)
}
