//! Redimensions, with aggregates or without.
ghost use Rattle.std.specs.Prelude.{◌≡◌, ◌≤◌, ◌<◌, ◌^◌, None, length, IsTrue, IfOk};
ghost use Rattle.cell_values.specs.Schemas.{IsValid};
ghost use Rattle.array_parts.specs.Cores.{HasCells, HaveCells, cores_of, meant_by_cores};
ghost use Rattle.array_geom.specs.Geometry.{overlaps};
ghost use Rattle.array_geom.specs.Link.{Is};
ghost use Rattle.logical_plan.specs.Meaning.{redimensioned_from};
ghost use Rattle.logical_plan.specs.Typing.{redimensions};

use crate::arrays::building::{broken_target, fitted_array};
use crate::arrays::cells::redimension_cells;
use crate::arrays::gathering::gathered_in_bands;
use area_cells::are_few;
use array_geom::ChunkedArray;
use cell_values::{Memory, Schema};
use logical_plan::Aggregate;

/// The redimension with aggregates of an array that is not broken, band by band.
fn of_bands(
    array: &ChunkedArray,
    target: &Schema,
    aggs: &[Aggregate],
) -> Result<ChunkedArray, Memory>
    requires whole { array.now.broken ≡ None }
    requires cells { HaveCells array.now.schema array.now.margins.items array.now.chunks }
    requires counted { length (cores_of array.now) < 2 ^ 63 }
    requires valid { IsValid target.now }
    requires typed { IsTrue (redimensions array.now.schema target.now aggs.now) }
    requires some { 1 ≤ length aggs.now }
    ensures array { IfOk result (λ made. Is made (redimensioned_from target.now aggs.now (meant_by_cores array.now))) }
    ensures margins { IfOk result (λ made. made.margins.items ≡ overlaps target.now.dimensions) }
{
    match gathered_in_bands(array, target, aggs)? {
        Ok(rows) => fitted_array(target, rows),
        Err(broken) => broken_target(target, &broken),
    }
}

/// The same. The array is let go. More cells than can be counted are as good as no memory.
fn of_array(
    array: ChunkedArray,
    target: &Schema,
    aggs: &[Aggregate],
) -> Result<ChunkedArray, Memory>
    requires whole { array.broken ≡ None }
    requires cells { HaveCells array.schema array.margins.items array.chunks }
    requires valid { IsValid target.now }
    requires typed { IsTrue (redimensions array.schema target.now aggs.now) }
    requires some { 1 ≤ length aggs.now }
    ensures array { IfOk result (λ made. Is made (redimensioned_from target.now aggs.now (meant_by_cores array))) }
    ensures margins { IfOk result (λ made. made.margins.items ≡ overlaps target.now.dimensions) }
{
    if !are_few(array.chunks.as_slice()) {
        return Err(Memory);
    }
    let made = of_bands(&array, target, aggs);
    drop(array);
    made
}

/// The cells of an array at the coordinates that their values and their own coordinates give the target's dimensions. Without
/// aggregates each has the values of the target's attributes, and no two may land at one coordinate. With aggregates the cells that
/// land at one coordinate become one, with the values of the aggregates that have the names of the target's attributes. The first
/// cell in row-major order that has a doubt, a fault among its new numbers, a place out of the target's bounds or, without
/// aggregates, one that is taken breaks the result. What the array's margins hold doesn't matter.
pub fn redimension(
    array: ChunkedArray,
    target: &Schema,
    aggs: &[Aggregate],
) -> Result<ChunkedArray, Memory>
    requires whole { array.broken ≡ None }
    requires cells { HasCells array }
    requires valid { IsValid target.now }
    requires typed { IsTrue (redimensions array.schema target.now aggs.now) }
    ensures array { IfOk result (λ made. Is made (redimensioned_from target.now aggs.now (meant_by_cores array))) }
    ensures margins { IfOk result (λ made. made.margins.items ≡ overlaps target.now.dimensions) }
{
    if aggs.is_empty() {
        return redimension_cells(array, target);
    }
    of_array(array, target, aggs)
}
