//! `sort` of whole arrays.
ghost use Rattle.std.specs.Prelude.{◌≡◌, None, IfOk};
ghost use Rattle.cell_values.specs.Schemas.{IsValid};
ghost use Rattle.array_geom.specs.Geometry.{overlaps};
ghost use Rattle.array_geom.specs.Link.{Is};
ghost use Rattle.array_parts.specs.Cores.{HasCells, HaveCells, meant_by_cores};
ghost use Rattle.logical_plan.specs.PlanSchema.{sort_schema};
ghost use Rattle.order_exec.specs.Inner.Sorted.{AreSorted};
ghost use Rattle.order_exec.specs.Meant.{sort_meant};

use crate::counting_sorts::sorted_by_counts;
use crate::number_sorts::sorted_by_number;
use crate::sorted_cells::{first_unsortable, in_key_order, into_cells, numbered};
use area_cells::{assemble, broken_array};
use array_geom::{ChunkedArray, margins_of};
use cell_values::{List, Memory, Row, Schema};
use group_rows::rows_of_cores;
use std::thread::Threads;

/// The rows sorted and numbered. More than there are numbers are as good as no memory.
fn sorted_rows(
    rt: &(impl Threads + Sync),
    keys: &[u32],
    rows: List<Row>,
) -> Result<List<Row>, Memory>
    ensures { IfOk result (AreSorted keys.now rows) }
{
    if rows.len() >= 1 << 62 {
        return Err(Memory);
    }
    let cells = into_cells(rows)?;
    numbered(in_key_order(rt, keys, cells)?)
}

/// The cells of an array that is not broken in the order of their keys, from a list of all its rows.
#[tactic(auto, using(array_geom::proofs::MarginLaws::overlap_each, array_geom::proofs::MarginLaws::overlap_places))]
fn from_rows(
    rt: &(impl Threads + Sync),
    array: ChunkedArray,
    keys: &[u32],
    target: &Schema,
) -> Result<ChunkedArray, Memory>
    requires whole { array.broken ≡ None }
    requires cells { HaveCells array.schema array.margins.items array.chunks }
    requires target { target.now ≡ sort_schema array.schema }
    requires valid { IsValid target.now }
    ensures array { IfOk result (λ made. Is made (sort_meant keys.now target.now (meant_by_cores array))) }
    ensures margins { IfOk result (λ made. made.margins.items ≡ overlaps target.now.dimensions) }
{
    let rows = rows_of_cores(array)?;
    let margins = margins_of(target);
    match first_unsortable(keys, rows.as_slice()) {
        Some(broken) => broken_array(target, &margins, &broken),
        None => {
            let sorted = sorted_rows(rt, keys, rows)?;
            assemble(target, &margins, sorted.as_slice())
        }
    }
}

/// The cells of an array numbered from 0 in the order of their keys, attributes named by their places: an array of the target. Cells
/// with the same keys stay in row-major order. The first cell in doubt or with a faulty key breaks the array. What the array's
/// margins hold doesn't matter.
pub fn sort(
    rt: &(impl Threads + Sync),
    array: ChunkedArray,
    keys: &[u32],
    target: &Schema,
) -> Result<ChunkedArray, Memory>
    requires whole { array.broken ≡ None }
    requires cells { HasCells array }
    requires target { target.now ≡ sort_schema array.schema }
    requires valid { IsValid target.now }
    ensures array { IfOk result (λ made. Is made (sort_meant keys.now target.now (meant_by_cores array))) }
    ensures margins { IfOk result (λ made. made.margins.items ≡ overlaps target.now.dimensions) }
{
    if let [key] = keys {
        if let Some(sorted) = sorted_by_counts(&array, *key, target)? {
            return Ok(sorted);
        }
        if let Some(sorted) = sorted_by_number(rt, &array, *key, target)? {
            return Ok(sorted);
        }
    }
    from_rows(rt, array, keys, target)
}
