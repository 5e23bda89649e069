//! The functions on nulls and texts.
ghost use Rattle.std.specs.Prelude.{◌≡◌, IfOk};
ghost use Rattle.cell_values.specs.Table.{nullness, text_length, text_of, null_of, missing_of, reason_of};

use cell_values::{Bytes, Code, Datum, FaultKind, Memory};
use itoa::Buffer;
use std::alloc::Global;

/// `is_null(a)`: whether `a` is null, of whatever code.
pub(crate) fn test_null(a: &Datum) -> Datum
    ensures { result ≡ nullness a.now }
{
    match a {
        Datum::Bad(kind) => Datum::Bad(*kind),
        _ => Datum::Truth(a.is_null()),
    }
}

/// `strlen(a)`: the number of bytes of a text.
pub(crate) fn measure_text(a: &Datum) -> Datum
    ensures { result ≡ text_length a.now }
{
    match a {
        Datum::Bad(kind) => Datum::Bad(*kind),
        Datum::Missing(code) => Datum::Missing(*code),
        Datum::Text(text) => Datum::Int(text.as_slice().len() as i64),
        _ => Datum::Null,
    }
}

/// `string(a)`: the decimal text of a number.
pub(crate) fn spell_number(alloc: Global, a: &Datum) -> Result<Datum, Memory>
    ensures { IfOk result (λ value. value ≡ text_of a.now) }
{
    match a {
        Datum::Bad(kind) => Ok(Datum::Bad(*kind)),
        Datum::Missing(code) => Ok(Datum::Missing(*code)),
        Datum::Int(number) => {
            let mut buffer = Buffer::new();
            let digits = buffer.format(*number).as_bytes();
            Ok(Datum::Text(Bytes::from_slice(alloc, digits)?))
        }
        _ => Ok(Datum::Null),
    }
}

/// `missing(a)`: the null whose code is a number from 0 to 127. `OutOfBounds` for other numbers.
pub(crate) fn make_null(a: &Datum) -> Datum
    ensures { result ≡ missing_of a.now }
{
    match a {
        Datum::Bad(kind) => Datum::Bad(*kind),
        Datum::Missing(code) => Datum::Missing(*code),
        Datum::Int(number) => null_of_number(*number),
        _ => Datum::Null,
    }
}

fn null_of_number(number: i64) -> Datum
    ensures { result ≡ null_of number }
{
    if number < 0 || number > 127 {
        return Datum::Bad(FaultKind::OutOfBounds);
    }
    match Code::new(number as u8) {
        Some(code) => Datum::Missing(code),
        None => Datum::Null,
    }
}

/// `missing_reason(a)`: the code of a null, and -1 where `a` is not null.
pub(crate) fn tell_reason(a: &Datum) -> Datum
    ensures { result ≡ reason_of a.now }
{
    match a {
        Datum::Bad(kind) => Datum::Bad(*kind),
        Datum::Null => Datum::Int(0),
        Datum::Missing(code) => Datum::Int(code.number() as i64),
        _ => Datum::Int(-1),
    }
}
