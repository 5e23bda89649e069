//! The places at which the cells of a chunk land.
ghost use Rattle.std.specs.Prelude.{◌≡◌, ◌+◌, ◌≤◌, ◌<◌, [], map, length, slice_index_or, IsTrue, IfOk, IfSome};
ghost use Rattle.std.specs.List.{AllZip};
ghost use Rattle.cell_values.specs.declared.datum.Cell.TheVariants.{Full};
ghost use Rattle.cell_values.specs.declared.datum.Datum.TheVariants.{Int};
ghost use Rattle.array_rows.specs.Rows.{placed};
ghost use Rattle.array_geom.specs.Inner.Ranges.{IsGrid};
ghost use Rattle.logical_plan.specs.Redimension.{target_value};
ghost use Rattle.group_rows.specs.Inner.Places.{ArePlaces, rows_at};
ghost use Rattle.redimension_exec.specs.Inner.Dense.{HasNumbers, IsLandingGrid, IsTargetOf};
ghost use Rattle.redimension_exec.specs.Inner.Places.{origin};

use crate::places::Place;
use array_geom::Grid;
use array_rows::{Rows, is_in_box};
use cell_values::{Bounds, Coord, List, Memory, number_at};
use std::alloc::Global;

/// Where cells land: where their numbers come from, the bounds of these, and the grid of all coordinates within the bounds.
#[derive(Drop)]
pub(crate) struct LandingGrid<'a> {
    pub places: &'a [Place],
    pub bounds: &'a Bounds,
    pub grid: &'a Grid,
}

/// The value that a row gives a dimension, if it is a number.
fn number_in(at: &Coord, rows: &Rows, k: usize, place: &Place) -> Option<i64>
    requires { k < length rows.now }
    ensures { IfSome result (λ number. target_value at.now.items (slice_index_or rows.now k []) (origin place.now) ≡ Int number) }
{
    match place {
        Place::OfAttribute(place) => rows.number(*place, k),
        Place::OfDimension(place) => Some(number_at(at, *place)),
        Place::Counted(lo) => Some(*lo),
    }
}

/// Adds the numbers that a row gives, if all its values are numbers, and says whether they are.
fn push_numbers(out: &mut Coord, at: &Coord, rows: &Rows, k: usize, places: &[Place]) -> bool
    requires room { length out.old.items + length places.now ≤ 6 }
    requires some { k < length rows.now }
    ensures { IsTrue result → HasNumbers out.old.items out.new.items (map (target_value at.now.items (slice_index_or rows.now k [])) (map origin places.now)) }
{
    match places {
        [] => true,
        [place, places @ ..] => match number_in(at, rows, k, place) {
            Some(number) => {
                out.push(number);
                push_numbers(out, at, rows, k, places)
            }
            None => false,
        },
    }
}

/// The place at which a row lands that stands in an area, if its numbers are known and within the bounds.
fn target_of(to: &LandingGrid<'_>, area: &Bounds, at: &Coord, rows: &Rows, k: usize) -> Option<u64>
    requires grid { IsLandingGrid to.now.places.now to.now.bounds.now to.now.grid.now }
    requires some { k < length rows.now }
    ensures { IfSome result (IsTargetOf area.now (map origin to.now.places.now) to.now.bounds.now to.now.grid.now
        (placed at.now.items (Full (slice_index_or rows.now k [])))) }
{
    if !is_in_box(area, at) {
        return None;
    }
    let mut key = Coord::new();
    if !push_numbers(&mut key, at, rows, k, to.places) {
        return None;
    }
    if !is_in_box(to.bounds, &key) {
        return None;
    }
    Some(to.grid.position(&key))
}

/// The place at which each row lands, if all stand in an area, and their numbers are known and within the bounds.
pub(crate) fn targets_of(
    alloc: Global,
    to: &LandingGrid<'_>,
    area: &Bounds,
    grid: &Grid,
    positions: &[u64],
    rows: &Rows,
) -> Result<Option<List<u64>>, Memory>
    requires to { IsLandingGrid to.now.places.now to.now.bounds.now to.now.grid.now }
    requires grid { IsGrid grid.now }
    requires inside { ArePlaces grid.now positions.now }
    requires each { length rows.now ≡ length positions.now }
    ensures { IfOk result (λ found. IfSome found (AllZip (IsTargetOf area.now (map origin to.now.places.now) to.now.bounds.now to.now.grid.now)
        (rows_at grid.now positions.now (map Full rows.now) 0))) }
{
    let mut targets = List::with_capacity(alloc, positions.len())?;
    for k in 0..positions.len() {
        let at = grid.place(positions[k]);
        match target_of(to, area, &at, rows, k) {
            Some(target) => targets.push(target)?,
            None => return Ok(None),
        }
    }
    Ok(Some(targets))
}
