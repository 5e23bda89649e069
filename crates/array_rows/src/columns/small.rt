//! Values that take no memory of their own.
ghost use Rattle.std.specs.Prelude.{◌≡◌};
ghost use Rattle.array_rows.specs.Seen.{seen};

use cell_values::Datum;

/// A number or a truth, or any other value.
#[derive(Clone, Copy)]
pub enum Small {
    Number(i64),
    Truth(bool),
    Other,
}

/// A value, where it is a number or a truth.
pub fn small_value(value: &Datum) -> Small
    ensures { result ≡ seen value.now }
{
    match value {
        Datum::Int(number) => Small::Number(*number),
        Datum::Truth(truth) => Small::Truth(*truth),
        _ => Small::Other,
    }
}
