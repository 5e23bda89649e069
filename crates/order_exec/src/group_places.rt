//! The groups of cells, by the places of a grid with the numbers that name them.
ghost use Rattle.std.specs.Prelude.{◌≡◌, ◌≤◌, length, IfOk, IfSome};
ghost use Rattle.array_geom.specs.Inner.Ranges.{IsGrid};
ghost use Rattle.group_rows.specs.Inner.Places.{ArePlaces};
ghost use Rattle.order_exec.specs.Inner.GroupPlaces.{HasGroup, HaveGroups, IsGroupGrid};

use crate::rank_groups::key_at;
use array_geom::Grid;
use array_rows::is_in_box;
use cell_values::{Bounds, Coord, List, Memory};
use std::alloc::Global;

/// The dimensions whose numbers name a group, the bounds of these numbers, and the grid of all numbers within the bounds.
#[derive(Drop)]
pub(crate) struct GroupGrid<'a> {
    pub dims: &'a [u32],
    pub bounds: &'a Bounds,
    pub grid: &'a Grid,
}

/// The place of the group of a cell, if its numbers are within the bounds.
fn place_of_group(to: &GroupGrid<'_>, at: &Coord) -> Option<u64>
    requires { IsGroupGrid to.now.dims.now to.now.bounds.now to.now.grid.now }
    ensures { IfSome result (HasGroup to.now.dims.now to.now.grid.now at.now.items) }
{
    let key = key_at(to.dims, at);
    if !is_in_box(to.bounds, &key) {
        return None;
    }
    Some(to.grid.position(&key))
}

/// The place of the group of each cell at these positions of a grid, if all numbers are within the bounds.
pub(crate) fn places_of_groups(
    alloc: Global,
    to: &GroupGrid<'_>,
    grid: &Grid,
    positions: &[u64],
) -> Result<Option<List<u64>>, Memory>
    requires to { IsGroupGrid to.now.dims.now to.now.bounds.now to.now.grid.now }
    requires grid { IsGrid grid.now }
    requires inside { ArePlaces grid.now positions.now }
    ensures { IfOk result (λ found. IfSome found (HaveGroups to.now.dims.now to.now.grid.now grid.now positions.now)) }
{
    let mut places = List::with_capacity(alloc, positions.len())?;
    for k in 0..positions.len() {
        let at = grid.place(positions[k]);
        match place_of_group(to, &at) {
            Some(place) => places.push(place)?,
            None => return Ok(None),
        }
    }
    Ok(Some(places))
}
