//! `rank` of whole arrays.
ghost use Rattle.std.specs.Prelude.{◌≡◌, ◌≤◌, None, length, IsTrue, IfOk};
ghost use Rattle.cell_values.specs.Schemas.{IsValid};
ghost use Rattle.array_geom.specs.Geometry.{overlaps};
ghost use Rattle.array_geom.specs.Link.{Is};
ghost use Rattle.array_parts.specs.Cores.{HasCells, meant_by_cores};
ghost use Rattle.logical_plan.specs.PlanSchema.{rank_schema};
ghost use Rattle.logical_plan.specs.Typing.{ranks};
ghost use Rattle.order_exec.specs.Inner.RankedRows.{AreRanked};
ghost use Rattle.order_exec.specs.Meant.{rank_meant};

use crate::column_ranks::ranked_by_columns;
use crate::ranked_rows::ranked_rows;
use area_cells::assemble;
use array_geom::{ChunkedArray, margins_of};
use cell_values::{List, Memory, Row, Schema};
use group_rows::rows_of_cores;

/// The ranks of rows. More than can be numbered are as good as no memory.
fn counted_ranks(attribute: u32, dims: &[u32], rows: List<Row>) -> Result<List<Row>, Memory>
    requires { length dims.now ≤ 6 }
    ensures { IfOk result (AreRanked attribute dims.now rows) }
{
    if rows.len() >= 1 << 62 {
        return Err(Memory);
    }
    ranked_rows(attribute, dims, rows)
}

/// An attribute of an array and the rank of each of its values among those of the cells that agree in the named dimensions, all cells
/// where none is named: an array of the target. A cell in doubt stays one. What the array's margins hold doesn't matter.
#[tactic(auto, using(array_geom::proofs::MarginLaws::overlap_each, array_geom::proofs::MarginLaws::overlap_places))]
pub fn rank(
    array: ChunkedArray,
    attribute: u32,
    dims: &[u32],
    target: &Schema,
) -> Result<ChunkedArray, Memory>
    requires whole { array.broken ≡ None }
    requires cells { HasCells array }
    requires target { target.now ≡ rank_schema attribute array.schema }
    requires valid { IsValid target.now }
    requires ranks { IsTrue (ranks array.schema attribute dims.now) }
    ensures array { IfOk result (λ made. Is made (rank_meant attribute dims.now (meant_by_cores array))) }
    ensures margins { IfOk result (λ made. made.margins.items ≡ overlaps target.now.dimensions) }
{
    if let Some(made) = ranked_by_columns(&array, attribute, dims, target)? {
        return Ok(made);
    }
    let rows = rows_of_cores(array)?;
    let ranked = counted_ranks(attribute, dims, rows)?;
    let margins = margins_of(target);
    assemble(target, &margins, ranked.as_slice())
}
