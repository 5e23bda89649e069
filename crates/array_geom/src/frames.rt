//! The frames of chunks.
ghost use Rattle.std.specs.Prelude.{◌≡◌, ◌+◌, ◌≤◌, ◌<◌, ◌^◌, pos, ◌≤ℤ◌, ◌+ℤ◌, ◌-ℤ◌, ◌++◌, length, IsTrue};
ghost use Rattle.array_rows.specs.Boxes.{is_inside};
ghost use Rattle.array_geom.specs.Geometry.{HasFrame, first_in, frame, frame_lengths, frame_low, has_core, last_in, coordinate_at, position_of, volume};
ghost use Rattle.array_geom.specs.Inner.Ranges.{IsNear, AreNear, IsGrid, AreMargins};

use crate::cores::{first_of, last_of};
use crate::{Grid, Lengths};
use array_rows::{Bounds, ChunkAt, Coord, Dimension, Margins, Schema};

/// The first number of a frame.
fn low_of(d: &Dimension, margin: u64, k: u64) -> i64
    requires near { IsNear d.now }
    requires core { first_in d.now k ≤ℤ d.now.hi }
    requires margin { margin ≤ 2 ^ 48 }
    ensures { result ≡ first_in d.now k -ℤ pos margin }
{
    first_of(d, k) - margin as i64
}

/// The last number of a frame.
fn high_of(d: &Dimension, margin: u64, k: u64) -> i64
    requires near { IsNear d.now }
    requires core { first_in d.now k ≤ℤ d.now.hi }
    requires margin { margin ≤ 2 ^ 48 }
    ensures { result ≡ last_in d.now k +ℤ pos margin }
{
    last_of(d, k) + margin as i64
}

fn push_low(out: &mut Coord, dims: &[Dimension], margins: &[u64], chunk: &[u64])
    requires room { length out.old.items + length dims.now ≤ 6 }
    requires near { AreNear dims.now }
    requires core { IsTrue (has_core dims.now chunk.now) }
    requires margins { AreMargins dims.now margins.now }
    ensures { out.new.items ≡ out.old.items ++ frame_low dims.now margins.now chunk.now }
{
    match dims {
        [] => {}
        [d, dims @ ..] => match chunk {
            [] => {}
            [k, chunk @ ..] => match margins {
                [] => {}
                [margin, margins @ ..] => {
                    out.push(low_of(d, *margin, *k));
                    push_low(out, dims, margins, chunk);
                }
            },
        },
    }
}

fn push_high(out: &mut Coord, dims: &[Dimension], margins: &[u64], chunk: &[u64])
    requires room { length out.old.items + length dims.now ≤ 6 }
    requires near { AreNear dims.now }
    requires core { IsTrue (has_core dims.now chunk.now) }
    requires margins { AreMargins dims.now margins.now }
    ensures { out.new.items ≡ out.old.items ++ (frame dims.now margins.now chunk.now).hi.items }
{
    match dims {
        [] => {}
        [d, dims @ ..] => match chunk {
            [] => {}
            [k, chunk @ ..] => match margins {
                [] => {}
                [margin, margins @ ..] => {
                    out.push(high_of(d, *margin, *k));
                    push_high(out, dims, margins, chunk);
                }
            },
        },
    }
}

fn push_lengths(out: &mut Lengths, dims: &[Dimension], margins: &[u64])
    requires room { length out.old.items + length dims.now ≤ 6 }
    requires near { AreNear dims.now }
    requires margins { AreMargins dims.now margins.now }
    ensures { out.new.items ≡ out.old.items ++ frame_lengths dims.now margins.now }
{
    match dims {
        [] => {}
        [d, dims @ ..] => match margins {
            [] => {}
            [margin, margins @ ..] => {
                out.push(d.chunk + 2 * *margin);
                push_lengths(out, dims, margins);
            }
        },
    }
}

/// The lowest coordinate of a chunk's frame.
#[tactic(auto, using(crate::proofs::NearLemmas::near_framed, crate::proofs::NearLemmas::margins_framed))]
fn low_corner(schema: &Schema, margins: &Margins, chunk: &ChunkAt) -> Coord
    requires { HasFrame schema.now margins.now.items chunk.now.items }
    ensures { result.items ≡ frame_low schema.now.dimensions margins.now.items chunk.now.items }
{
    let dims = schema.dimensions.as_slice();
    let margins = margins.as_slice();
    let mut low = Coord::new();
    push_low(&mut low, dims, margins, chunk.as_slice());
    low
}

/// The highest coordinate of a chunk's frame.
#[tactic(auto, using(crate::proofs::NearLemmas::near_framed, crate::proofs::NearLemmas::margins_framed))]
fn high_corner(schema: &Schema, margins: &Margins, chunk: &ChunkAt) -> Coord
    requires { HasFrame schema.now margins.now.items chunk.now.items }
    ensures { result.items ≡ (frame schema.now.dimensions margins.now.items chunk.now.items).hi.items }
{
    let dims = schema.dimensions.as_slice();
    let margins = margins.as_slice();
    let mut high = Coord::new();
    push_high(&mut high, dims, margins, chunk.as_slice());
    high
}

/// The lengths of a chunk's frame.
#[tactic(auto, using(crate::proofs::NearLemmas::near_framed, crate::proofs::NearLemmas::margins_framed))]
fn lengths_of(schema: &Schema, margins: &Margins, chunk: &ChunkAt) -> Lengths
    requires { HasFrame schema.now margins.now.items chunk.now.items }
    ensures { result.items ≡ frame_lengths schema.now.dimensions margins.now.items }
{
    let dims = schema.dimensions.as_slice();
    let margins = margins.as_slice();
    let mut lengths = Lengths::new();
    push_lengths(&mut lengths, dims, margins);
    lengths
}

/// The box of a chunk with its margins, whatever the bounds are.
pub fn frame(schema: &Schema, margins: &Margins, chunk: &ChunkAt) -> Bounds
    requires { HasFrame schema.now margins.now.items chunk.now.items }
    ensures { result ≡ frame schema.now.dimensions margins.now.items chunk.now.items }
{
    Bounds {
        lo: low_corner(schema, margins, chunk),
        hi: high_corner(schema, margins, chunk),
    }
}

/// The frame as a box whose coordinates have places. A loop over cells takes it once.
#[tactic(auto, using(crate::proofs::NearLemmas::grid_made))]
pub fn grid_of(schema: &Schema, margins: &Margins, chunk: &ChunkAt) -> Grid
    requires { HasFrame schema.now margins.now.items chunk.now.items }
    ensures low { result.low.items ≡ frame_low schema.now.dimensions margins.now.items chunk.now.items }
    ensures lengths { result.lengths.items ≡ frame_lengths schema.now.dimensions margins.now.items }
    ensures grid { IsGrid result }
{
    let low = low_corner(schema, margins, chunk);
    let lengths = lengths_of(schema, margins, chunk);
    Grid { low, lengths }
}

/// The row-major place, from 0, of a coordinate in a chunk's frame.
#[tactic(auto, using(crate::proofs::NearLemmas::inside_grid))]
pub fn position(schema: &Schema, margins: &Margins, chunk: &ChunkAt, at: &Coord) -> u64
    requires framed { HasFrame schema.now margins.now.items chunk.now.items }
    requires inside { IsTrue (is_inside (frame schema.now.dimensions margins.now.items chunk.now.items) at.now.items) }
    ensures value { result ≡ position_of schema.now.dimensions margins.now.items chunk.now.items at.now.items }
    ensures below { result < volume (frame_lengths schema.now.dimensions margins.now.items) }
{
    let grid = grid_of(schema, margins, chunk);
    grid.position(at)
}

/// The coordinate at a place of a chunk's frame.
pub fn place(schema: &Schema, margins: &Margins, chunk: &ChunkAt, position: u64) -> Coord
    requires framed { HasFrame schema.now margins.now.items chunk.now.items }
    requires inside { position < volume (frame_lengths schema.now.dimensions margins.now.items) }
    ensures { result.items ≡ coordinate_at schema.now.dimensions margins.now.items chunk.now.items position }
{
    let grid = grid_of(schema, margins, chunk);
    grid.place(position)
}
