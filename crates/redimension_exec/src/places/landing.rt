//! What becomes of one row after others.
ghost use Rattle.std.specs.Prelude.{◌≡◌, ◌≤◌, List as Items, true, false, map, length, IsTrue, IfOk, IfSome};
ghost use Rattle.cell_values.specs.declared.datum.Row.{Row as Placed};
ghost use Rattle.array_rows.specs.Boxes.{is_inside};
ghost use Rattle.array_rows.specs.Rows.{Coordinate};
ghost use Rattle.logical_plan.specs.Redimension.{carried};
ghost use Rattle.redimension_exec.specs.Inner.Counting.{AreCountsOf, HasLows, has_counted};
ghost use Rattle.redimension_exec.specs.Inner.Filling.{IsNext, LandsInside};
ghost use Rattle.redimension_exec.specs.Inner.Places.{origin};
ghost use Rattle.redimension_exec.specs.Inner.Steps.{IsPlaced, IsLanded, targets_of};

use crate::places::counting::{
    count_of, count_one, has_counted, take_place, target_within, uncounted,
};
use crate::places::numbers::{first_numbers, values_from};
use crate::places::places::Place;
use cell_values::{Bounds, Cell, Coord, FaultKind, Memory, Row};
use std::collections::BTreeMap;

/// Gives a cell its place after those with the same numbers, which the synthetic ones keep apart.
fn place_counted(
    places: &[Place],
    bounds: &Bounds,
    counts: &mut BTreeMap<Coord, u64>,
    first: &Coord,
) -> Result<Result<Coord, FaultKind>, Memory>
    requires counted { has_counted (map origin places.now) ≡ true }
    requires each { length first.now.items ≡ length places.now }
    requires lows { HasLows (map origin places.now) first.now.items }
    ensures inside { IfOk result (λ placed. IfOk placed (λ at. IsTrue (is_inside bounds.now at.items))) }
    ensures placed { (taken : Items Coordinate) → AreCountsOf (map origin places.now) taken counts.old
        → IfOk result (λ placed. IsPlaced (map origin places.now) bounds.now taken first.now.items placed counts.new) }
{
    let key = uncounted(places, first);
    let count = count_of(counts, &key);
    match target_within(places, bounds, count, first) {
        None => Ok(Err(FaultKind::OutOfBounds)),
        Some(at) => {
            count_one(counts, key, count)?;
            Ok(Ok(at))
        }
    }
}

/// Gives a cell its place where no dimension is synthetic. A place beyond the bounds comes before one that is taken.
fn place_once(
    places: &[Place],
    bounds: &Bounds,
    counts: &mut BTreeMap<Coord, u64>,
    first: &Coord,
) -> Result<Result<Coord, FaultKind>, Memory>
    requires plain { has_counted (map origin places.now) ≡ false }
    requires each { length first.now.items ≡ length places.now }
    requires lows { HasLows (map origin places.now) first.now.items }
    ensures inside { IfOk result (λ placed. IfOk placed (λ at. IsTrue (is_inside bounds.now at.items))) }
    ensures placed { (taken : Items Coordinate) → AreCountsOf (map origin places.now) taken counts.old
        → IfOk result (λ placed. IsPlaced (map origin places.now) bounds.now taken first.now.items placed counts.new) }
{
    match target_within(places, bounds, 0, first) {
        None => Ok(Err(FaultKind::OutOfBounds)),
        Some(at) => {
            let before = take_place(counts, uncounted(places, first))?;
            if before > 0 {
                return Ok(Err(FaultKind::Collision));
            }
            Ok(Ok(at))
        }
    }
}

fn place(
    places: &[Place],
    bounds: &Bounds,
    counts: &mut BTreeMap<Coord, u64>,
    first: &Coord,
) -> Result<Result<Coord, FaultKind>, Memory>
    requires each { length first.now.items ≡ length places.now }
    requires lows { HasLows (map origin places.now) first.now.items }
    ensures inside { IfOk result (λ placed. IfOk placed (λ at. IsTrue (is_inside bounds.now at.items))) }
    ensures placed { (taken : Items Coordinate) → AreCountsOf (map origin places.now) taken counts.old
        → IfOk result (λ placed. IsPlaced (map origin places.now) bounds.now taken first.now.items placed counts.new) }
{
    if has_counted(places) {
        place_counted(places, bounds, counts, first)
    } else {
        place_once(places, bounds, counts, first)
    }
}

fn land(
    places: &[Place],
    bounds: &Bounds,
    counts: &mut BTreeMap<Coord, u64>,
    row: &Row,
) -> Result<Result<Option<Coord>, FaultKind>, Memory>
    requires { length places.now ≤ 6 }
    ensures inside { IfOk result (λ landed. IfOk landed (λ o. IfSome o (λ at. IsTrue (is_inside bounds.now at.items)))) }
    ensures landed { (taken : Items Coordinate) → AreCountsOf (map origin places.now) taken counts.old
        → IfOk result (λ landed. IsLanded (map origin places.now) bounds.now taken row.now.at.items row.now.cell landed counts.new) }
{
    match first_numbers(places, row) {
        Err(kind) => Ok(Err(kind)),
        Ok(None) => Ok(Ok(None)),
        Ok(Some(first)) => match place(places, bounds, counts, &first)? {
            Err(kind) => Ok(Err(kind)),
            Ok(at) => Ok(Ok(Some(at))),
        },
    }
}

/// The row with the values of the target, at its place.
fn carried(values: &[Place], at: Coord, row: &Row) -> Result<Row, Memory>
    ensures { IfOk result (λ made. made ≡ carried (map origin values.now) (at.items, row.now)) }
{
    let cell = match &row.cell {
        Cell::Full(from) => Cell::Full(values_from(&row.at, from, values)?),
        Cell::Doubt(kind) => Cell::Doubt(*kind),
    };
    Ok(Row { at, cell })
}

/// What becomes of one row: a row at its target, nothing, or why it breaks the array.
#[derive(Drop)]
pub(crate) enum Step {
    Lands(Row),
    Drops,
    Breaks(FaultKind),
}

pub(crate) fn next_of(
    places: &[Place],
    bounds: &Bounds,
    values: &[Place],
    counts: &mut BTreeMap<Coord, u64>,
    row: &Row,
) -> Result<Step, Memory>
    requires { length places.now ≤ 6 }
    ensures inside { IfOk result (LandsInside bounds.now) }
    ensures next { IfOk result (λ step. (made : Items Placed) → AreCountsOf (map origin places.now) (targets_of made) counts.old
        → IsNext (map origin places.now) bounds.now (map origin values.now) made row.now step counts.new) }
{
    match land(places, bounds, counts, row)? {
        Err(kind) => Ok(Step::Breaks(kind)),
        Ok(None) => Ok(Step::Drops),
        Ok(Some(at)) => {
            let new = carried(values, at, row)?;
            Ok(Step::Lands(new))
        }
    }
}
