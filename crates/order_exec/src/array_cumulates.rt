//! Aggregates along the lines of whole arrays.
ghost use Rattle.std.specs.Prelude.{◌≡◌, ℕ, ◌<◌, ◌^◌, None, List as Items, length, IsTrue, IfOk};
ghost use Rattle.cell_values.specs.Schemas.{IsValid};
ghost use Rattle.cell_values.specs.declared.schema.Dimension.{Dimension as Side};
ghost use Rattle.array_geom.specs.Geometry.{overlaps};
ghost use Rattle.array_geom.specs.Link.{Is, core_rows};
ghost use Rattle.array_parts.specs.Cores.{HasCells, HaveCells, meant_by_cores};
ghost use Rattle.logical_plan.specs.PlanSchema.{cumulate_schema};
ghost use Rattle.logical_plan.specs.Typing.{are_aggregates_of};
ghost use Rattle.order_exec.specs.Meant.{cumulate_meant};

use crate::line_starts::{Along, low_of};
use crate::margins::with_margins;
use crate::running_chunks::parts_by_chunk;
use area_cells::{are_few, array_of_parts, no_margins};
use array_geom::{ChunkedArray, margins_of};
use cell_values::{Memory, Schema};
use logical_plan::Aggregate;

/// The aggregates along the lines of an array that is not broken, chunk after chunk, in chunks without margins.
fn from_parts(
    array: ChunkedArray,
    along: &Along<'_>,
    target: &Schema,
) -> Result<ChunkedArray, Memory>
    requires whole { array.broken ≡ None }
    requires cells { HaveCells array.schema array.margins.items array.chunks }
    requires target { target.now ≡ cumulate_schema along.now.aggs.now array.schema }
    requires valid { IsValid target.now }
    requires typed { IsTrue (are_aggregates_of array.schema.attributes along.now.aggs.now) }
    requires few { (dims : Items Side) (margins : Items ℕ) → length (core_rows dims margins array.chunks) < 2 ^ 63 }
    ensures { IfOk result (λ made. Is made (cumulate_meant along.now.aggs.now along.now.place (meant_by_cores array))) }
{
    let ChunkedArray {
        schema,
        margins,
        chunks,
        broken: _,
    } = array;
    let none = no_margins(target);
    let parts = parts_by_chunk(along, &schema, &margins, target, &none, chunks)?;
    array_of_parts(target, &none, parts)
}

/// The aggregates along the lines of an array that is not broken. More cells than can be counted are as good as no memory.
#[tactic(auto, using(array_geom::proofs::MarginLaws::overlap_each, array_geom::proofs::MarginLaws::overlap_places))]
fn of_whole(array: ChunkedArray, along: &Along<'_>, target: &Schema) -> Result<ChunkedArray, Memory>
    requires whole { array.broken ≡ None }
    requires cells { HaveCells array.schema array.margins.items array.chunks }
    requires target { target.now ≡ cumulate_schema along.now.aggs.now array.schema }
    requires valid { IsValid target.now }
    requires typed { IsTrue (are_aggregates_of array.schema.attributes along.now.aggs.now) }
    ensures array { IfOk result (λ made. Is made (cumulate_meant along.now.aggs.now along.now.place (meant_by_cores array))) }
    ensures margins { IfOk result (λ made. made.margins.items ≡ overlaps target.now.dimensions) }
{
    if !are_few(array.chunks.as_slice()) {
        return Err(Memory);
    }
    let parts = from_parts(array, along, target)?;
    with_margins(parts, &margins_of(target))
}

/// The aggregates of the cells up to each cell on its line along a dimension: an array of the target, chunk after chunk. A cell in
/// doubt stays one. What the array's margins hold doesn't matter.
pub fn cumulate(
    array: ChunkedArray,
    aggs: &[Aggregate],
    dim: u32,
    target: &Schema,
) -> Result<ChunkedArray, Memory>
    requires whole { array.broken ≡ None }
    requires cells { HasCells array }
    requires target { target.now ≡ cumulate_schema aggs.now array.schema }
    requires valid { IsValid target.now }
    requires typed { IsTrue (are_aggregates_of array.schema.attributes aggs.now) }
    ensures array { IfOk result (λ made. Is made (cumulate_meant aggs.now dim (meant_by_cores array))) }
    ensures margins { IfOk result (λ made. made.margins.items ≡ overlaps target.now.dimensions) }
{
    let place = dim as usize;
    let along = Along {
        place,
        low: low_of(array.schema.dimensions.as_slice(), place),
        aggs,
    };
    of_whole(array, &along, target)
}
