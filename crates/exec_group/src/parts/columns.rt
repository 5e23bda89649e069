//! The group of all cells of a chunk's core, from its columns: no list of values is made for a cell.
ghost use Rattle.std.specs.Prelude.{◌≡◌, ◌≤◌, ◌<◌, ◌^◌, ◌∷◌, ◌&&◌, [], ℕ, true, pos, map, length, replicate, IsTrue, IfOk, IfSome};
ghost use Rattle.std.specs.List.{AllByRecursion};
ghost use Rattle.array_rows.specs.Boxes.{bounds_of, is_inside};
ghost use Rattle.array_rows.specs.Rows.{Coordinate};
ghost use Rattle.array_geom.specs.Geometry.{coordinate_in, volume};
ghost use Rattle.array_geom.specs.Inner.Ranges.{IsGrid};
ghost use Rattle.array_parts.specs.Cores.{HaveCells};
ghost use Rattle.group_rows.specs.Counts.{cells_in};
ghost use Rattle.group_rows.specs.Grouped.{AreGroupsOf};
ghost use Rattle.group_rows.specs.Inner.Keys.{aggregate_sets, core_of};
ghost use Rattle.group_rows.specs.Inner.Places.{HasKey, key_of};
ghost use Rattle.group_rows.specs.Sets.{one_set, sets_by};

use array_geom::{Chunk, Grid, core_box, grid_of};
use array_rows::{Cells, is_in_box};
use cell_values::{Bounds, Coord, List, Margins, Memory, Schema};
use group_rows::{Grouping, Groups, groups_of_places, one_of_columns, zero};
use logical_plan::Aggregate;

/// Whether cells can be counted.
fn are_few(cells: &Cells) -> bool
    ensures { IsTrue result → length cells.now < 2 ^ 63 }
{
    cells.len() < 1 << 63
}

fn holds_both(area: &Bounds, first: &Coord, last: &Coord) -> bool
    ensures { result ≡ (is_inside area.now first.now.items && is_inside area.now last.now.items) }
{
    is_in_box(area, first) && is_in_box(area, last)
}

/// Whether a grid lies in a box, as it does where its lowest and its last coordinate are in it.
fn is_whole(grid: &Grid, area: &Bounds) -> bool
    requires { IsGrid grid.now }
    ensures { IsTrue result → (p : ℕ) → p < volume grid.now.lengths.items
        → is_inside area.now (coordinate_in grid.now.low.items grid.now.lengths.items p) ≡ true }
{
    let count = grid.volume();
    let last = grid.place(count - 1);
    holds_both(area, &grid.low, &last)
}

/// That all places are inside.
fn all_inside(positions: &List<u64>) -> Result<List<bool>, Memory>
    ensures { IfOk result (λ inside. inside ≡ replicate (length positions.now) true) }
{
    let inside = Vec::from_elem(positions.allocator(), true, positions.len())?;
    Ok(List::from_vec(inside))
}

/// Whether each place is in a box, place by place.
fn each_inside(grid: &Grid, area: &Bounds, positions: &List<u64>) -> Result<List<bool>, Memory>
    requires grid { IsGrid grid.now }
    requires inside { AllByRecursion (λ p. p < volume grid.now.lengths.items) positions.now }
    ensures { IfOk result (λ inside. inside ≡ map (λ p. is_inside area.now (coordinate_in grid.now.low.items grid.now.lengths.items p)) positions.now) }
{
    let mut inside = List::with_capacity(positions.allocator(), positions.len())?;
    for position in positions.as_slice() {
        inside.push(is_in_box(area, &grid.place(*position)))?;
    }
    Ok(inside)
}

/// Whether each place is in a box.
fn places_inside(grid: &Grid, area: &Bounds, positions: &List<u64>) -> Result<List<bool>, Memory>
    requires grid { IsGrid grid.now }
    requires inside { AllByRecursion (λ p. p < volume grid.now.lengths.items) positions.now }
    ensures { IfOk result (λ inside. inside ≡ map (λ p. is_inside area.now (coordinate_in grid.now.low.items grid.now.lengths.items p)) positions.now) }
{
    if is_whole(grid, area) {
        all_inside(positions)
    } else {
        each_inside(grid, area, positions)
    }
}

/// The one group of all cells of a chunk's core, where all values of each aggregate are kept as numbers.
fn group_of_core(
    schema: &Schema,
    margins: &Margins,
    chunk: &Chunk,
    aggs: &[Aggregate],
) -> Result<Option<Groups>, Memory>
    requires { HaveCells schema.now margins.now.items (chunk.now ∷ []) }
    ensures groups { IfOk result (λ found. IfSome found (λ part.
        AreGroupsOf aggs.now (one_set (pos 0 ∷ []) (core_of schema.now.dimensions margins.now.items chunk.now)) part.groups)) }
    ensures cells { IfOk result (λ found. IfSome found (λ part.
        cells_in part.groups ≤ length (core_of schema.now.dimensions margins.now.items chunk.now))) }
{
    if !are_few(&chunk.cells) {
        return Ok(None);
    }
    let grid = grid_of(schema, margins, &chunk.at);
    let core = core_box(schema, &chunk.at);
    let inside = places_inside(&grid, &core, &chunk.positions)?;
    let alloc = chunk.positions.allocator();
    one_of_columns(alloc, aggs, &zero(), &chunk.cells, inside.as_slice())
}

/// The groups of the cells of a chunk's core. More cells than can be counted are as good as no memory.
pub(crate) fn groups_of_core(
    schema: &Schema,
    margins: &Margins,
    chunk: &Chunk,
    aggs: &[Aggregate],
    grouping: &Grouping<'_>,
) -> Result<Groups, Memory>
    requires cells { HaveCells schema.now margins.now.items (chunk.now ∷ []) }
    requires keyed { (c : Coordinate) → IsTrue (is_inside (bounds_of schema.now.dimensions) c) → HasKey grouping.now c }
    ensures groups { IfOk result (λ part.
        AreGroupsOf aggs.now (sets_by (key_of grouping.now) (core_of schema.now.dimensions margins.now.items chunk.now)) part.groups) }
    ensures cells { IfOk result (λ part. cells_in part.groups ≤ length (core_of schema.now.dimensions margins.now.items chunk.now)) }
{
    if !are_few(&chunk.cells) {
        return Err(Memory);
    }
    let grid = grid_of(schema, margins, &chunk.at);
    let core = core_box(schema, &chunk.at);
    let inside = places_inside(&grid, &core, &chunk.positions)?;
    groups_of_places(
        chunk.positions.allocator(),
        aggs,
        grouping,
        &grid,
        chunk.positions.as_slice(),
        &chunk.cells,
        inside.as_slice(),
    )
}

/// The groups of a chunk's core from its columns: without names where all values of each aggregate are kept as numbers.
pub(crate) fn part_of_columns(
    schema: &Schema,
    margins: &Margins,
    chunk: &Chunk,
    aggs: &[Aggregate],
    dims: &[u32],
) -> Result<Option<Groups>, Memory>
    requires cells { HaveCells schema.now margins.now.items (chunk.now ∷ []) }
    requires names { length dims.now ≤ 6 }
    ensures groups { IfOk result (λ found. IfSome found (λ part.
        AreGroupsOf aggs.now (aggregate_sets dims.now (core_of schema.now.dimensions margins.now.items chunk.now)) part.groups)) }
    ensures cells { IfOk result (λ found. IfSome found (λ part.
        cells_in part.groups ≤ length (core_of schema.now.dimensions margins.now.items chunk.now))) }
{
    match dims {
        [] => group_of_core(schema, margins, chunk, aggs),
        [_, ..] => {
            let grouping = Grouping::Named(dims);
            let groups = groups_of_core(schema, margins, chunk, aggs, &grouping)?;
            Ok(Some(groups))
        }
    }
}
