//! The numbers along a dimension, and the values of a `build`.
ghost use Rattle.std.specs.Prelude.{◌≡◌, ◌≤◌, ◌<◌, ◌^◌, ◌+ℤ◌, pos, [], ◌∷◌, IfOk};
ghost use Rattle.logical_plan.specs.CellOps.{fit_value, fit_values};
ghost use Rattle.logical_plan.specs.Meaning.{how_many};

use cell_values::{Attribute, Datum, FaultKind, Memory};

/// How many numbers there are from `lo` to `hi`. No memory holds a cell for each of 2^63 and more.
pub(crate) fn count_of(lo: i64, hi: i64) -> Result<u64, Memory>
    ensures value { IfOk result (λ count. count ≡ how_many lo hi) }
    ensures few { IfOk result (λ count. count ≤ 2 ^ 63) }
{
    if hi < lo {
        return Ok(0);
    }
    match hi.checked_sub(lo) {
        Some(last) => Ok(last as u64 + 1),
        None => Err(Memory),
    }
}

/// The number that so many others from `lo` on come before.
pub(crate) fn number_at(lo: i64, hi: i64, offset: u64) -> i64
    requires within { offset < how_many lo hi }
    requires few { how_many lo hi ≤ 2 ^ 63 }
    ensures { result ≡ lo +ℤ pos offset }
{
    lo + offset as i64
}

/// The value, or a fault in place of a null in a first attribute that has none.
pub(crate) fn fitted(attributes: &[Attribute], value: Datum) -> Datum
    ensures { result ∷ [] ≡ fit_values attributes.now (value ∷ []) }
{
    match attributes {
        [] => value,
        [first, ..] => fit_value(first, value),
    }
}

/// The value, or a fault in place of a null in an attribute that has none.
fn fit_value(attribute: &Attribute, value: Datum) -> Datum
    ensures { result ≡ fit_value attribute.now value }
{
    if value.is_null() && !attribute.nullable {
        Datum::Bad(FaultKind::NullInNotNull)
    } else {
        value
    }
}
