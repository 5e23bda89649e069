//! The numbers and values that a row gives a target.
ghost use Rattle.std.specs.Prelude.{◌≡◌, ◌+◌, ◌≤◌, ◌++◌, map, length, slice_index_or, pos, IfOk};
ghost use Rattle.std.specs.List.{list_any};
ghost use Rattle.cell_values.specs.declared.datum.Datum.TheVariants.{Null};
ghost use Rattle.cell_values.specs.declared.datum.Cell.TheVariants.{Full};
ghost use Rattle.cell_values.specs.Nulls.{is_null};
ghost use Rattle.logical_plan.specs.Groups.{bad_kind, first_some, number_of};
ghost use Rattle.logical_plan.specs.Redimension.{target_value};
ghost use Rattle.redimension_exec.specs.Landings.{BeginsAs};
ghost use Rattle.redimension_exec.specs.Inner.Places.{origin};

use crate::places::places::Place;
use cell_values::{Cell, Coord, Datum, FaultKind, List, Memory, Row, number_at};

/// The value in a place, null where there is none.
fn value_at<'a>(values: &'a [Datum], place: usize, null: &'a Datum) -> &'a Datum
    requires { null.now ≡ Null }
    ensures { result.now ≡ slice_index_or values.now place Null }
{
    match values.get(place) {
        Some(value) => value,
        None => null,
    }
}

fn fault_of(value: &Datum) -> Option<FaultKind>
    ensures { result ≡ bad_kind value.now }
{
    match value {
        Datum::Bad(kind) => Some(*kind),
        _ => None,
    }
}

fn number_of(value: &Datum) -> i64
    ensures { result ≡ number_of value.now }
{
    match value {
        Datum::Int(number) => *number,
        _ => 0,
    }
}

fn fault_from(at: &Coord, values: &[Datum], place: &Place) -> Option<FaultKind>
    ensures { result ≡ bad_kind (target_value at.now.items values.now (origin place.now)) }
{
    match place {
        Place::OfAttribute(place) => fault_of(value_at(values, *place, &Datum::Null)),
        Place::OfDimension(_) => None,
        Place::Counted(_) => None,
    }
}

fn is_null_from(at: &Coord, values: &[Datum], place: &Place) -> bool
    ensures { result ≡ is_null (target_value at.now.items values.now (origin place.now)) }
{
    match place {
        Place::OfAttribute(place) => value_at(values, *place, &Datum::Null).is_null(),
        Place::OfDimension(_) => false,
        Place::Counted(_) => false,
    }
}

fn number_from(at: &Coord, values: &[Datum], place: &Place) -> i64
    ensures { result ≡ number_of (target_value at.now.items values.now (origin place.now)) }
{
    match place {
        Place::OfAttribute(place) => number_of(value_at(values, *place, &Datum::Null)),
        Place::OfDimension(place) => number_at(at, *place),
        Place::Counted(lo) => *lo,
    }
}

fn value_from(at: &Coord, values: &[Datum], place: &Place) -> Result<Datum, Memory>
    ensures { IfOk result (λ value. value ≡ target_value at.now.items values.now (origin place.now)) }
{
    match place {
        Place::OfAttribute(place) => value_at(values, *place, &Datum::Null).copy(),
        Place::OfDimension(place) => Ok(Datum::Int(number_at(at, *place))),
        Place::Counted(lo) => Ok(Datum::Int(*lo)),
    }
}

/// The values that a row gives.
pub(crate) fn values_from(
    at: &Coord,
    values: &List<Datum>,
    places: &[Place],
) -> Result<List<Datum>, Memory>
    ensures { IfOk result (λ made. made ≡ map (target_value at.now.items values.now) (map origin places.now)) }
{
    let mut made = values.another();
    for place in places {
        made.push(value_from(at, values.as_slice(), place)?)?;
    }
    Ok(made)
}

fn first_fault(at: &Coord, values: &[Datum], places: &[Place]) -> Option<FaultKind>
    ensures { result ≡ first_some bad_kind (map (target_value at.now.items values.now) (map origin places.now)) }
{
    match places {
        [] => None,
        [place, places @ ..] => match fault_from(at, values, place) {
            Some(kind) => Some(kind),
            None => first_fault(at, values, places),
        },
    }
}

fn has_null(at: &Coord, values: &[Datum], places: &[Place]) -> bool
    ensures { result ≡ list_any is_null (map (target_value at.now.items values.now) (map origin places.now)) }
{
    match places {
        [] => false,
        [place, places @ ..] => { is_null_from(at, values, place) || has_null(at, values, places) }
    }
}

/// Adds the numbers that a row gives.
fn push_numbers(out: &mut Coord, at: &Coord, values: &[Datum], places: &[Place])
    requires { length out.old.items + length places.now ≤ 6 }
    ensures { out.new.items ≡ out.old.items ++ map number_of (map (target_value at.now.items values.now) (map origin places.now)) }
{
    match places {
        [] => {}
        [place, places @ ..] => {
            out.push(number_from(at, values, place));
            push_numbers(out, at, values, places);
        }
    }
}

fn numbers_from(at: &Coord, values: &[Datum], places: &[Place]) -> Coord
    requires { length places.now ≤ 6 }
    ensures { result.items ≡ map number_of (map (target_value at.now.items values.now) (map origin places.now)) }
{
    let mut numbers = Coord::new();
    push_numbers(&mut numbers, at, values, places);
    numbers
}

fn first_of_values(
    at: &Coord,
    values: &[Datum],
    places: &[Place],
) -> Result<Option<Coord>, FaultKind>
    requires { length places.now ≤ 6 }
    ensures { BeginsAs (map origin places.now) at.now.items (Full values.now) result }
{
    match first_fault(at, values, places) {
        Some(kind) => Err(kind),
        None => {
            if has_null(at, values, places) {
                Ok(None)
            } else {
                Ok(Some(numbers_from(at, values, places)))
            }
        }
    }
}

/// A row's doubt, or the first fault among its target's numbers; none where a number is null; else the numbers, a synthetic one at
/// its low bound.
pub(crate) fn first_numbers(places: &[Place], row: &Row) -> Result<Option<Coord>, FaultKind>
    requires { length places.now ≤ 6 }
    ensures { BeginsAs (map origin places.now) row.now.at.items row.now.cell result }
{
    match &row.cell {
        Cell::Doubt(kind) => Err(*kind),
        Cell::Full(values) => first_of_values(&row.at, values.as_slice(), places),
    }
}
