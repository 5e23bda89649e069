//! What a cell adds to a state, and what two states have together.
ghost use Rattle.std.specs.Prelude.{◌≡◌, ◌^◌, ◌<◌, slice_index_or, IfOk, OnOk, OnErr};
ghost use Rattle.std.specs.Option.{option_map};
ghost use Rattle.cell_values.specs.declared.datum.Datum.TheVariants.{Int, Null};
ghost use Rattle.logical_plan.specs.Groups.{attribute_of, bad_kind, fault_for, number_of};
ghost use Rattle.agg_states.specs.Best.{beats, text_of, value_order};
ghost use Rattle.agg_states.specs.Merged.{earlier, count_of, wins, best_with, better, total_or_null, outcome};

use cell_values::{Broken, Cell, Coord, Datum, FaultKind, Memory, copy_coord};
use logical_plan::AggFunction;
use std::cmp::Ordering;

/// The value of an attribute, and `null` where the cell is in doubt or has no such attribute.
pub(crate) fn value_in<'a>(cell: &'a Cell, attribute: u32, null: &'a Datum) -> &'a Datum
    requires { null.now ≡ Null }
    ensures { result.now ≡ attribute_of attribute cell.now }
{
    match cell {
        Cell::Full(values) => match values.as_slice().get(attribute as usize) {
            Some(value) => value,
            None => null,
        },
        Cell::Doubt(_) => null,
    }
}

/// The fault of a cell for an aggregate.
pub(crate) fn fault_in(function: AggFunction, cell: &Cell, attribute: u32) -> Option<FaultKind>
    ensures { result ≡ fault_for function attribute cell.now }
{
    match cell {
        Cell::Doubt(kind) => Some(*kind),
        Cell::Full(values) => match function {
            AggFunction::CountAll => None,
            _ => bad_kind(values.as_slice(), attribute),
        },
    }
}

fn bad_kind(values: &[Datum], attribute: u32) -> Option<FaultKind>
    ensures { result ≡ bad_kind (slice_index_or values.now attribute Null) }
{
    match values.get(attribute as usize) {
        Some(Datum::Bad(kind)) => Some(*kind),
        _ => None,
    }
}

/// The number of values that a value counts for.
pub(crate) fn count_of(value: &Datum) -> u64
    ensures { result ≡ count_of value.now }
{
    if value.is_null() { 0 } else { 1 }
}

/// The number that a value adds to a sum.
pub(crate) fn number_of(value: &Datum) -> i64
    ensures { result ≡ number_of value.now }
{
    match value {
        Datum::Int(number) => *number,
        _ => 0,
    }
}

fn text_of(value: &Datum) -> &[u8]
    ensures { result.now ≡ text_of value.now }
{
    match value {
        Datum::Text(text) => text.as_slice(),
        _ => &[],
    }
}

/// The order of values that need not be numbers.
fn general_order(a: &Datum, b: &Datum) -> Ordering
    ensures { result ≡ value_order a.now b.now }
{
    number_of(a)
        .cmp(&number_of(b))
        .then(text_of(a).cmp(text_of(b)))
}

/// The order of values: of numbers by size, of texts by their bytes.
#[tactic(auto, using(crate::proofs::BestLaws::numbers_by_size))]
fn value_order(a: &Datum, b: &Datum) -> Ordering
    ensures { result ≡ value_order a.now b.now }
{
    match a {
        Datum::Int(x) => match b {
            Datum::Int(y) => x.cmp(y),
            _ => general_order(a, b),
        },
        _ => general_order(a, b),
    }
}

/// Whether a value is wanted rather than another.
fn beats(function: AggFunction, value: &Datum, other: &Datum) -> bool
    ensures { result ≡ beats function value.now other.now }
{
    match function {
        AggFunction::Min => value_order(value, other).is_lt(),
        AggFunction::Max => value_order(other, value).is_lt(),
        _ => false,
    }
}

/// Whether a value takes the place of the best one so far.
fn wins(function: AggFunction, value: &Datum, best: &Option<Datum>) -> bool
    ensures { result ≡ wins function value.now best.now }
{
    if value.is_null() {
        return false;
    }
    match best {
        Some(best) => beats(function, value, best),
        None => matches!(function, AggFunction::Min | AggFunction::Max),
    }
}

/// Puts a copy of a value in the place of the best one, where it is wanted rather than that.
pub(crate) fn keep_best(
    function: AggFunction,
    value: &Datum,
    best: &mut Option<Datum>,
) -> Result<(), Memory>
    ensures ok { OnOk result (best.new ≡ best_with function value.now best.old) }
    ensures err { OnErr result (best.new ≡ best.old) }
{
    if wins(function, value, best) {
        *best = Some(value.copy()?);
    }
    Ok(())
}

/// The same for a number, which takes no memory.
pub(crate) fn keep_number(function: AggFunction, number: i64, best: &mut Option<Datum>)
    ensures { best.new ≡ best_with function (Int number) best.old }
{
    let value = Datum::Int(number);
    if wins(function, &value, best) {
        *best = Some(value);
    }
}

/// The best of the values of two sets.
pub(crate) fn better_of(function: AggFunction, a: Option<Datum>, b: Option<Datum>) -> Option<Datum>
    ensures { result ≡ better function a b }
{
    match a {
        None => b,
        Some(a) => match b {
            None => Some(a),
            Some(b) => {
                if beats(function, &b, &a) {
                    Some(b)
                } else {
                    Some(a)
                }
            }
        },
    }
}

pub(crate) fn copy_best(best: &Option<Datum>) -> Result<Option<Datum>, Memory>
    ensures { IfOk result (λ copy. copy ≡ best.now) }
{
    match best {
        Some(value) => Ok(Some(value.copy()?)),
        None => Ok(None),
    }
}

pub(crate) fn copy_fault(fault: &Option<Broken>) -> Option<Broken>
    ensures { result ≡ fault.now }
{
    match fault {
        Some(broken) => placed_fault(&broken.at, Some(broken.kind)),
        None => None,
    }
}

/// A fault with the coordinate of its cell.
pub(crate) fn placed_fault(at: &Coord, kind: Option<FaultKind>) -> Option<Broken>
    ensures { result ≡ option_map (λ kind. record { at = at.now; kind = kind }) kind }
{
    match kind {
        Some(kind) => Some(Broken {
            at: copy_coord(at),
            kind,
        }),
        None => None,
    }
}

/// Of two faults the one that comes first in row-major order.
pub(crate) fn earlier_of(a: Option<Broken>, b: Option<Broken>) -> Option<Broken>
    ensures { result ≡ earlier a b }
{
    match a {
        None => b,
        Some(a) => match b {
            None => Some(a),
            Some(b) => {
                if b.at.as_slice().cmp(a.at.as_slice()).is_lt() {
                    Some(b)
                } else {
                    Some(a)
                }
            }
        },
    }
}

/// The total, null of no value, or `Overflow` where 64 bits do not hold it.
fn total_of(values: u64, total: i128) -> Datum
    ensures { result ≡ total_or_null values total }
{
    if values == 0 {
        return Datum::Null;
    }
    match i64::try_from(total) {
        Ok(number) => Datum::Int(number),
        Err(_) => Datum::Bad(FaultKind::Overflow),
    }
}

/// What a state without a fault tells.
pub(crate) fn outcome(
    function: AggFunction,
    cells: u64,
    values: u64,
    total: i128,
    best: Option<Datum>,
) -> Datum
    requires cells { cells < 2 ^ 63 }
    requires values { values < 2 ^ 63 }
    ensures { result ≡ outcome function cells values total best }
{
    match function {
        AggFunction::Sum => total_of(values, total),
        AggFunction::Count => Datum::Int(values as i64),
        AggFunction::CountAll => Datum::Int(cells as i64),
        AggFunction::Min | AggFunction::Max => best.unwrap_or(Datum::Null),
    }
}
