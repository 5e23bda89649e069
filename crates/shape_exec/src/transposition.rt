//! `transpose`.
ghost use Rattle.std.specs.Prelude.{◌≡◌, ◌+◌, ◌≤◌, ◌++◌, None, length, reverse, IfOk};
ghost use Rattle.cell_values.specs.Schemas.{IsValid};
ghost use Rattle.array_geom.specs.Geometry.{overlaps};
ghost use Rattle.array_geom.specs.Link.{Is};
ghost use Rattle.array_parts.specs.Cores.{HasCells, HaveCells, meant_by_cores};
ghost use Rattle.logical_plan.specs.Shapes.{backwards};
ghost use Rattle.logical_plan.specs.ShapeMeant.{transpose_meant};
ghost use Rattle.logical_plan.specs.ShapeSchemas.{transpose_schema};

use crate::coord_maps::{ByCoords, CoordMap};
use crate::mapped_arrays::mapped_array;
use afl_outside::Gate;
use array_geom::ChunkedArray;
use cell_values::{Bounds, Coord, Memory, Schema};
use chunk_workers::Crew;
use std::thread::Threads;

/// Adds numbers, the last one first.
fn push_backwards(out: &mut Coord, numbers: &[i64])
    requires { length out.old.items + length numbers.now ≤ 6 }
    ensures { out.new.items ≡ out.old.items ++ reverse numbers.now }
{
    match numbers {
        [] => {}
        [number, numbers @ ..] => {
            push_backwards(out, numbers);
            out.push(*number);
        }
    }
}

/// A coordinate backwards.
fn backwards(at: &Coord) -> Coord
    ensures { result.items ≡ backwards at.now.items }
{
    let mut back = Coord::new();
    push_backwards(&mut back, at.as_slice());
    back
}

/// The transposition of an array of a schema.
#[derive(Drop)]
struct Transposition<'a> {
    source: &'a Schema,
    target: &'a Schema,
}

impl CoordMap for Transposition<'_> {
    ghost able = { λ by. by.target.now ≡ transpose_schema by.source.now };

    ghost domain = { λ by. by.source.now.dimensions };

    ghost forth = { λ by. backwards };

    ghost back = { λ by. backwards };

    ghost range = { λ by. by.target.now.dimensions };

    fn image(&self, at: &Coord) -> Coord {
        backwards(at)
    }

    fn preimage(&self, area: &Bounds) -> Bounds {
        Bounds {
            lo: backwards(&area.lo),
            hi: backwards(&area.hi),
        }
    }
}

/// The transposed array of one that is not broken.
fn of_whole<R: Threads + Sync, G: Gate>(
    crew: &mut Crew<'_, R, G>,
    array: &ChunkedArray,
    target: &Schema,
) -> Result<ChunkedArray, Memory>
    requires whole { array.now.broken ≡ None }
    requires cells { HaveCells array.now.schema array.now.margins.items array.now.chunks }
    requires target { target.now ≡ transpose_schema array.now.schema }
    requires valid { IsValid target.now }
    ensures array { IfOk result (λ made. Is made (transpose_meant (meant_by_cores array.now))) }
    ensures margins { IfOk result (λ made. made.margins.items ≡ overlaps target.now.dimensions) }
{
    let by = Transposition {
        source: &array.schema,
        target,
    };
    let map = ByCoords {
        by: &by,
        schema: target,
    };
    mapped_array(crew, array, target, &map)
}

/// The cells of an array at their coordinates backwards. What the array's margins hold doesn't matter.
pub fn transpose<R: Threads + Sync, G: Gate>(
    crew: &mut Crew<'_, R, G>,
    array: ChunkedArray,
    target: &Schema,
) -> Result<ChunkedArray, Memory>
    requires whole { array.broken ≡ None }
    requires cells { HasCells array }
    requires target { target.now ≡ transpose_schema array.schema }
    requires valid { IsValid target.now }
    ensures array { IfOk result (λ made. Is made (transpose_meant (meant_by_cores array))) }
    ensures margins { IfOk result (λ made. made.margins.items ≡ overlaps target.now.dimensions) }
{
    of_whole(crew, &array, target)
}
