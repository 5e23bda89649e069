//! `reverse`.
ghost use Rattle.std.specs.Prelude.{◌≡◌, ◌+◌, ◌≤◌, ◌≤ℤ◌, ◌++◌, None, length, map, IsTrue, IfOk};
ghost use Rattle.std.specs.Int.{w64, saturate_signed};
ghost use Rattle.cell_values.specs.Schemas.{IsValid};
ghost use Rattle.array_rows.specs.Boxes.{by_pairs, is_between};
ghost use Rattle.array_geom.specs.Geometry.{overlaps};
ghost use Rattle.array_geom.specs.Inner.Ranges.{AreNear, IsNear};
ghost use Rattle.array_geom.specs.Link.{Is};
ghost use Rattle.array_parts.specs.Cores.{HasCells, HaveCells, meant_by_cores};
ghost use Rattle.logical_plan.specs.Shapes.{mirrored, opposite};
ghost use Rattle.logical_plan.specs.ShapeMeant.{reverse_meant};

use crate::coord_maps::{ByCoords, CoordMap};
use crate::mapped_arrays::mapped_array;
use afl_outside::Gate;
use array_geom::ChunkedArray;
use cell_values::{Bounds, Coord, Dimension, Memory, Schema};
use chunk_workers::Crew;
use std::thread::Threads;

/// The place that is as far from the high bound as this one is from the low one.
fn opposite(d: &Dimension, number: i64) -> i64
    requires near { IsNear d.now }
    requires low { d.now.lo ≤ℤ number }
    requires high { number ≤ℤ d.now.hi }
    ensures { result ≡ opposite d.now number }
{
    d.lo + d.hi - number
}

fn push_opposite(out: &mut Coord, dims: &[Dimension], at: &[i64])
    requires room { length out.old.items + length dims.now ≤ 6 }
    requires near { AreNear dims.now }
    requires inside { IsTrue (is_between (map (λ d. d.lo) dims.now) (map (λ d. d.hi) dims.now) at.now) }
    ensures { out.new.items ≡ out.old.items ++ mirrored dims.now at.now }
{
    match dims {
        [] => {}
        [d, dims @ ..] => match at {
            [] => {}
            [number, at @ ..] => {
                out.push(opposite(d, *number));
                push_opposite(out, dims, at);
            }
        },
    }
}

/// The same of any number, as far as 64 bits go.
fn turned(d: &Dimension, number: i64) -> i64
    requires { IsNear d.now }
    ensures { result ≡ saturate_signed w64 (opposite d.now number) }
{
    (d.lo + d.hi).saturating_sub(number)
}

fn push_turned(out: &mut Coord, dims: &[Dimension], at: &[i64])
    requires room { length out.old.items + length dims.now ≤ 6 }
    requires near { AreNear dims.now }
    ensures { out.new.items ≡ out.old.items ++ by_pairs (λ d x. saturate_signed w64 (opposite d x)) dims.now at.now }
{
    match dims {
        [] => {}
        [d, dims @ ..] => match at {
            [] => {}
            [number, at @ ..] => {
                out.push(turned(d, *number));
                push_turned(out, dims, at);
            }
        },
    }
}

/// The reversal of an array of a schema.
#[derive(Drop)]
struct Reversal<'a> {
    schema: &'a Schema,
}

impl CoordMap for Reversal<'_> {
    ghost able = { λ by. IsValid by.schema.now };

    ghost domain = { λ by. by.schema.now.dimensions };

    ghost forth = { λ by. mirrored by.schema.now.dimensions };

    ghost back = { λ by. mirrored by.schema.now.dimensions };

    ghost range = { λ by. by.schema.now.dimensions };

    #[tactic(auto, using(array_geom::proofs::NearLemmas::near_slice))]
    fn image(&self, at: &Coord) -> Coord {
        let dims = self.schema.dimensions.as_slice();
        let mut moved = Coord::new();
        push_opposite(&mut moved, dims, at.as_slice());
        moved
    }

    #[tactic(auto, using(array_geom::proofs::NearLemmas::near_slice))]
    fn preimage(&self, area: &Bounds) -> Bounds {
        let dims = self.schema.dimensions.as_slice();
        let mut lo = Coord::new();
        let mut hi = Coord::new();
        push_turned(&mut lo, dims, area.hi.as_slice());
        push_turned(&mut hi, dims, area.lo.as_slice());
        Bounds { lo, hi }
    }
}

/// The reversed array of one that is not broken.
fn of_whole<R: Threads + Sync, G: Gate>(
    crew: &mut Crew<'_, R, G>,
    array: &ChunkedArray,
    target: &Schema,
) -> Result<ChunkedArray, Memory>
    requires whole { array.now.broken ≡ None }
    requires cells { HaveCells array.now.schema array.now.margins.items array.now.chunks }
    requires target { target.now ≡ array.now.schema }
    requires valid { IsValid target.now }
    ensures array { IfOk result (λ made. Is made (reverse_meant (meant_by_cores array.now))) }
    ensures margins { IfOk result (λ made. made.margins.items ≡ overlaps target.now.dimensions) }
{
    let by = Reversal { schema: target };
    let map = ByCoords {
        by: &by,
        schema: target,
    };
    mapped_array(crew, array, target, &map)
}

/// The cells of an array at the places opposite: in each dimension as far from the high bound as they were from the low one. What
/// the array's margins hold doesn't matter.
pub fn reverse<R: Threads + Sync, G: Gate>(
    crew: &mut Crew<'_, R, G>,
    array: ChunkedArray,
    target: &Schema,
) -> Result<ChunkedArray, Memory>
    requires whole { array.broken ≡ None }
    requires cells { HasCells array }
    requires target { target.now ≡ array.schema }
    requires valid { IsValid target.now }
    ensures array { IfOk result (λ made. Is made (reverse_meant (meant_by_cores array))) }
    ensures margins { IfOk result (λ made. made.margins.items ≡ overlaps target.now.dimensions) }
{
    of_whole(crew, &array, target)
}
