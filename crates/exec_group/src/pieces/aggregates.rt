//! Aggregates of an array's cells by dimensions.
ghost use Rattle.std.specs.Prelude.{◌≡◌, [], None, length, IsTrue, IfOk};
ghost use Rattle.cell_values.specs.Schemas.{IsValid};
ghost use Rattle.array_parts.specs.Cores.{HasCells, HaveCells, meant_by_cores};
ghost use Rattle.array_geom.specs.Geometry.{overlaps};
ghost use Rattle.array_geom.specs.Link.{Is};
ghost use Rattle.logical_plan.specs.PlanSchema.{aggregate_schema};
ghost use Rattle.logical_plan.specs.Typing.{are_aggregates_of, are_below};
ghost use Rattle.exec_group.specs.Meant.{aggregate_meant};
ghost use Rattle.exec_group.specs.Inner.Parts.{has_parts};

use crate::parts::told_array;
use crate::pieces::parts::groups_by_parts;
use afl_outside::Gate;
use array_geom::{Chunk, ChunkedArray};
use cell_values::{Memory, Schema};
use chunk_workers::Crew;
use group_rows::aggregate_groups;
use logical_plan::Aggregate;
use std::thread::Threads;

/// The aggregates of an array that is not broken, found chunk by chunk.
fn by_parts<R: Threads + Sync, G: Gate>(
    crew: &mut Crew<'_, R, G>,
    array: ChunkedArray,
    aggs: &[Aggregate],
    dims: &[u32],
    target: &Schema,
) -> Result<ChunkedArray, Memory>
    requires whole { array.broken ≡ None }
    requires cells { HaveCells array.schema array.margins.items array.chunks }
    requires target { target.now ≡ aggregate_schema aggs.now dims.now array.schema }
    requires valid { IsValid target.now }
    requires typed { IsTrue (are_aggregates_of array.schema.attributes aggs.now) }
    requires names { IsTrue (are_below (length array.schema.dimensions) dims.now) }
    requires some { IsTrue (has_parts dims.now array.chunks) }
    ensures array { IfOk result (λ made. Is made (aggregate_meant aggs.now dims.now (meant_by_cores array))) }
    ensures margins { IfOk result (λ made. made.margins.items ≡ overlaps target.now.dimensions) }
{
    let ChunkedArray {
        schema,
        margins,
        chunks,
        broken: _,
    } = array;
    let groups = groups_by_parts(crew, &schema, &margins, chunks, aggs, dims)?;
    told_array(groups, target)
}

/// Whether there are dimensions by which to group, or chunks.
fn has_parts(dims: &[u32], chunks: &[Chunk]) -> bool
    ensures { result ≡ has_parts dims.now chunks.now }
{
    match dims {
        [] => match chunks {
            [] => false,
            [_, ..] => true,
        },
        [_, ..] => true,
    }
}

/// The aggregates of an array without chunks.
fn of_none(
    array: ChunkedArray,
    aggs: &[Aggregate],
    dims: &[u32],
    target: &Schema,
) -> Result<ChunkedArray, Memory>
    requires whole { array.broken ≡ None }
    requires cells { HaveCells array.schema array.margins.items array.chunks }
    requires target { target.now ≡ aggregate_schema aggs.now dims.now array.schema }
    requires valid { IsValid target.now }
    requires typed { IsTrue (are_aggregates_of array.schema.attributes aggs.now) }
    requires names { IsTrue (are_below (length array.schema.dimensions) dims.now) }
    requires none { array.chunks ≡ [] }
    ensures array { IfOk result (λ made. Is made (aggregate_meant aggs.now dims.now (meant_by_cores array))) }
    ensures margins { IfOk result (λ made. made.margins.items ≡ overlaps target.now.dimensions) }
{
    let rows = array.chunks.another();
    let groups = aggregate_groups(&rows, aggs, dims)?;
    told_array(groups, target)
}

/// The aggregates of the cells that agree in the named dimensions, of all cells without names: an array of the target, chunk by
/// chunk. Without names there is a group also where there is no chunk. What the array's margins hold doesn't matter.
pub fn aggregate<R: Threads + Sync, G: Gate>(
    crew: &mut Crew<'_, R, G>,
    array: ChunkedArray,
    aggs: &[Aggregate],
    dims: &[u32],
    target: &Schema,
) -> Result<ChunkedArray, Memory>
    requires whole { array.broken ≡ None }
    requires cells { HasCells array }
    requires target { target.now ≡ aggregate_schema aggs.now dims.now array.schema }
    requires valid { IsValid target.now }
    requires typed { IsTrue (are_aggregates_of array.schema.attributes aggs.now) }
    requires names { IsTrue (are_below (length array.schema.dimensions) dims.now) }
    ensures array { IfOk result (λ made. Is made (aggregate_meant aggs.now dims.now (meant_by_cores array))) }
    ensures margins { IfOk result (λ made. made.margins.items ≡ overlaps target.now.dimensions) }
{
    if has_parts(dims, array.chunks.as_slice()) {
        by_parts(crew, array, aggs, dims, target)
    } else {
        of_none(array, aggs, dims, target)
    }
}
