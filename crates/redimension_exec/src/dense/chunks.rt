//! The groups of what lands of a chunk's core, from its columns: no row is made.
ghost use Rattle.std.specs.Prelude.{◌≡◌, ◌≤◌, ◌∷◌, [], Ok as Good, false, length, map, IfOk, IfSome};
ghost use Rattle.array_rows.specs.Boxes.{bounds_of};
ghost use Rattle.array_geom.specs.Link.{core_rows};
ghost use Rattle.logical_plan.specs.Redimension.{origin_of};
ghost use Rattle.group_rows.specs.Counts.{cells_in};
ghost use Rattle.redimension_exec.specs.Inner.Bands.{AreBands};
ghost use Rattle.redimension_exec.specs.Inner.Counting.{has_counted};
ghost use Rattle.redimension_exec.specs.Inner.Dense.{AreTargetsIn, IsLandingGrid};
ghost use Rattle.redimension_exec.specs.Inner.Grouping.{AreGroupsLanded};
ghost use Rattle.redimension_exec.specs.Inner.Places.{origin};

use crate::dense::columns::columns_of;
use crate::dense::grids::grid_between;
use crate::dense::groups::groups_of_columns;
use crate::dense::targets::{LandingGrid, targets_of};
use crate::places::places_of_dimensions;
use area_cells::bounds_of;
use array_geom::{Chunk, Form, core_box, grid_of};
use cell_values::{List, Margins, Memory, Schema};
use group_rows::Groups;
use logical_plan::Aggregate;

/// The place at which each cell of a chunk lands, if the cells stand in its core, and their numbers are known and within the bounds.
fn targets_in(
    source: &Schema,
    margins: &Margins,
    chunk: &Chunk,
    to: &LandingGrid<'_>,
) -> Result<Option<List<u64>>, Memory>
    requires bands { AreBands source.now margins.now.items (chunk.now ∷ []) }
    requires to { IsLandingGrid to.now.places.now to.now.bounds.now to.now.grid.now }
    ensures { IfOk result (λ found. IfSome found (AreTargetsIn source.now.dimensions margins.now.items chunk.now
        (map origin to.now.places.now) to.now.bounds.now to.now.grid.now)) }
{
    match chunk.cells.form() {
        Form::Even(rows) => {
            let grid = grid_of(source, margins, &chunk.at);
            let core = core_box(source, &chunk.at);
            targets_of(
                chunk.positions.allocator(),
                to,
                &core,
                &grid,
                chunk.positions.as_slice(),
                rows,
            )
        }
        Form::Mixed(_) => Ok(None),
    }
}

/// The groups of what lands of a chunk's core, if its cells stand there alone, and all numbers are known and within the bounds.
fn groups_in_grid(
    source: &Schema,
    margins: &Margins,
    chunk: &Chunk,
    aggregates: &[Aggregate],
    to: &LandingGrid<'_>,
) -> Result<Option<Groups>, Memory>
    requires bands { AreBands source.now margins.now.items (chunk.now ∷ []) }
    requires to { IsLandingGrid to.now.places.now to.now.bounds.now to.now.grid.now }
    ensures groups { IfOk result (λ found. IfSome found (λ groups. AreGroupsLanded aggregates.now (map origin to.now.places.now) to.now.bounds.now
        (core_rows source.now.dimensions margins.now.items (chunk.now ∷ [])) (Good groups))) }
    ensures cells { IfOk result (λ found. IfSome found (λ groups.
        cells_in groups.groups ≤ length (core_rows source.now.dimensions margins.now.items (chunk.now ∷ [])))) }
{
    let alloc = chunk.positions.allocator();
    let Some(targets) = targets_in(source, margins, chunk, to)? else {
        return Ok(None);
    };
    let targets = targets.as_slice();
    let Some(columns) = columns_of(alloc, aggregates, to.grid, targets, &chunk.cells)? else {
        return Ok(None);
    };
    let groups = groups_of_columns(alloc, aggregates, to.grid, targets, columns.as_slice())?;
    Ok(Some(groups))
}

/// Whether a grid has few places beside the cells of a chunk.
fn is_small(to: &LandingGrid<'_>, chunk: &Chunk) -> bool
    requires { IsLandingGrid to.now.places.now to.now.bounds.now to.now.grid.now }
{
    to.grid.volume() / 4 <= chunk.positions.len() as u64
}

/// The same, if the target has few coordinates beside the cells of the chunk.
pub(crate) fn groups_by_places(
    source: &Schema,
    target: &Schema,
    aggregates: &[Aggregate],
    margins: &Margins,
    chunk: &Chunk,
) -> Result<Option<Groups>, Memory>
    requires few { length target.now.dimensions ≤ 6 }
    requires plain { has_counted (map (origin_of source.now) target.now.dimensions) ≡ false }
    requires bands { AreBands source.now margins.now.items (chunk.now ∷ []) }
    ensures groups { IfOk result (λ found. IfSome found (λ groups. AreGroupsLanded aggregates.now (map (origin_of source.now) target.now.dimensions)
        (bounds_of target.now.dimensions) (core_rows source.now.dimensions margins.now.items (chunk.now ∷ [])) (Good groups))) }
    ensures cells { IfOk result (λ found. IfSome found (λ groups.
        cells_in groups.groups ≤ length (core_rows source.now.dimensions margins.now.items (chunk.now ∷ [])))) }
{
    let bounds = bounds_of(target.dimensions.as_slice());
    let Some(grid) = grid_between(&bounds) else {
        return Ok(None);
    };
    let places = places_of_dimensions(source, target.dimensions.as_slice())?;
    let to = LandingGrid {
        places: places.as_slice(),
        bounds: &bounds,
        grid: &grid,
    };
    if !is_small(&to, chunk) {
        return Ok(None);
    }
    groups_in_grid(source, margins, chunk, aggregates, &to)
}
