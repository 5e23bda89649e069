//! Arrays whose values are numbers, ranked from the columns of their chunks.
ghost use Rattle.std.specs.Prelude.{◌≡◌, ℕ, ◌<◌, ◌≤◌, ◌^◌, None, List as Items, length, IsTrue, IfOk, IfSome};
ghost use Rattle.cell_values.specs.declared.schema.Dimension.{Dimension};
ghost use Rattle.cell_values.specs.Schemas.{IsValid};
ghost use Rattle.array_rows.specs.Arrays.{Meant};
ghost use Rattle.array_geom.specs.Geometry.{overlaps};
ghost use Rattle.array_geom.specs.Link.{Is, core_rows};
ghost use Rattle.array_parts.specs.Cores.{HaveCells, meant_by_cores};
ghost use Rattle.area_cells.specs.Margins.{no_margins};
ghost use Rattle.chunk_cells.specs.Whole.{IsArray};
ghost use Rattle.logical_plan.specs.PlanSchema.{rank_schema};
ghost use Rattle.logical_plan.specs.Typing.{ranks};
ghost use Rattle.order_exec.specs.Inner.GroupPlaces.{IsGroupGrid};
ghost use Rattle.order_exec.specs.Meant.{rank_meant};

use crate::core_hulls::box_of_cores;
use crate::counting_sorts::has_no_margins;
use crate::group_numbers::sorted_numbers;
use crate::group_places::GroupGrid;
use crate::margins::with_margins;
use crate::number_sorts::grid_between;
use crate::rank_groups::key_at;
use crate::ranked_chunks::{Ranking, numbers_of_groups, ranked_chunks};
use area_cells::{array_of_parts, no_margins};
use array_geom::{Chunk, ChunkedArray, margins_of};
use cell_values::{Bounds, Memory, Schema};

/// How many cells chunks hold, if these can be numbered.
fn count_cells(chunks: &[Chunk]) -> Option<u64>
    ensures { IfSome result (λ count. (dims : Items Dimension) (margins : Items ℕ) → length (core_rows dims margins chunks.now) < 2 ^ 62) }
{
    let mut rest = chunks;
    let mut count = 0u64;
    while let Some((chunk, further)) = rest.split_first() {
        match count.checked_add(chunk.cells.len() as u64) {
            Some(more) => count = more,
            None => return None,
        }
        rest = further;
    }
    if count >= 1 << 62 {
        return None;
    }
    Some(count)
}

/// The ranks of an array without margins, in chunks without margins, if all its values are numbers whose groups have places.
fn ranked_in_grid(
    array: &ChunkedArray,
    attribute: u32,
    to: &GroupGrid<'_>,
    target: &Schema,
) -> Result<Option<ChunkedArray>, Memory>
    requires whole { array.now.broken ≡ None }
    requires cells { HaveCells array.now.schema array.now.margins.items array.now.chunks }
    requires target { target.now ≡ rank_schema attribute array.now.schema }
    requires valid { IsValid target.now }
    requires ranks { IsTrue (ranks array.now.schema attribute to.now.dims.now) }
    requires to { IsGroupGrid to.now.dims.now to.now.bounds.now to.now.grid.now }
    requires none { array.now.margins.items ≡ no_margins array.now.schema.dimensions }
    requires few { (dims : Items Dimension) (margins : Items ℕ) → length (core_rows dims margins array.now.chunks) < 2 ^ 62 }
    ensures { IfOk result (λ found. IfSome found (λ made. Is made (rank_meant attribute to.now.dims.now (meant_by_cores array.now)))) }
{
    let alloc = array.chunks.allocator();
    let chunks = array.chunks.as_slice();
    let ranking = Ranking {
        schema: &array.schema,
        margins: &array.margins,
        attribute,
        to,
    };
    let Some(numbers) = numbers_of_groups(alloc, &ranking, chunks)? else {
        return Ok(None);
    };
    let groups = sorted_numbers(alloc, numbers)?;
    let Some(parts) = ranked_chunks(alloc, &ranking, groups.as_slice(), chunks)? else {
        return Ok(None);
    };
    let none = no_margins(target);
    let made = array_of_parts(target, &none, parts)?;
    Ok(Some(made))
}

/// The same array with the margins of its schema.
#[tactic(auto, using(array_geom::proofs::MarginLaws::overlap_each, array_geom::proofs::MarginLaws::overlap_places))]
fn with_overlaps(array: ChunkedArray, target: &Schema) -> Result<ChunkedArray, Memory>
    requires array { IsArray array }
    requires schema { array.schema ≡ target.now }
    requires valid { IsValid target.now }
    ensures array { (meant : Meant) → Is array meant → IfOk result (λ made. Is made meant) }
    ensures margins { IfOk result (λ made. made.margins.items ≡ overlaps target.now.dimensions) }
{
    with_margins(array, &margins_of(target))
}

/// The ranks of an array without margins, if all its values are numbers, and if there are no more groups than cells.
pub(crate) fn ranked_by_columns(
    array: &ChunkedArray,
    attribute: u32,
    dims: &[u32],
    target: &Schema,
) -> Result<Option<ChunkedArray>, Memory>
    requires whole { array.now.broken ≡ None }
    requires cells { HaveCells array.now.schema array.now.margins.items array.now.chunks }
    requires target { target.now ≡ rank_schema attribute array.now.schema }
    requires valid { IsValid target.now }
    requires ranks { IsTrue (ranks array.now.schema attribute dims.now) }
    requires names { length dims.now ≤ 6 }
    ensures array { IfOk result (λ found. IfSome found (λ made. Is made (rank_meant attribute dims.now (meant_by_cores array.now)))) }
    ensures margins { IfOk result (λ found. IfSome found (λ made. made.margins.items ≡ overlaps target.now.dimensions)) }
{
    if !has_no_margins(array) {
        return Ok(None);
    }
    let chunks = array.chunks.as_slice();
    let Some(count) = count_cells(chunks) else {
        return Ok(None);
    };
    let Some(area) = box_of_cores(&array.schema, chunks) else {
        return Ok(None);
    };
    let bounds = Bounds {
        lo: key_at(dims, &area.lo),
        hi: key_at(dims, &area.hi),
    };
    let Some(grid) = grid_between(&bounds) else {
        return Ok(None);
    };
    if count < grid.volume() {
        return Ok(None);
    }
    let to = GroupGrid {
        dims,
        bounds: &bounds,
        grid: &grid,
    };
    let Some(parts) = ranked_in_grid(array, attribute, &to, target)? else {
        return Ok(None);
    };
    let made = with_overlaps(parts, target)?;
    Ok(Some(made))
}
