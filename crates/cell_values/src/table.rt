//! The arithmetic, the comparisons and the logic of values.
//!
//! For operands of types that an operator does not have the answer means nothing.
ghost use Rattle.std.specs.Prelude.{◌≡◌, IfOk, MatchOption};
ghost use Rattle.cell_values.specs.Table.{exact, joined, total, difference, product, quotient, remainder};
ghost use Rattle.cell_values.specs.Table.{negation, holds, comparison, both_of, either_of, opposite};

use crate::limits::MAX_TEXT;
use crate::{CompareOp, Datum, FaultKind, List, Memory};
use std::alloc::Global;
use std::cmp::Ordering;

/// An operator on two values: a fault of an operand, else a null of an operand with its code, the left one first, else the answer of
/// the arms.
macro_rules! strictly {
    ($a:expr, $b:expr, $($arms:tt)*) => {
        match ($a, $b) {
            (Datum::Bad(kind), _) | (_, Datum::Bad(kind)) => Datum::Bad(*kind),
            (Datum::Null, _) => Datum::Null,
            (Datum::Missing(code), _) => Datum::Missing(*code),
            (_, Datum::Null) => Datum::Null,
            (_, Datum::Missing(code)) => Datum::Missing(*code),
            $($arms)*
            _ => Datum::Null,
        }
    };
}

/// The number, or `Overflow` where 64 bits do not hold it.
fn checked(number: Option<i64>) -> Datum
    ensures { MatchOption number (result ≡ Datum.Bad FaultKind.Overflow) (λ n. result ≡ Datum.Int n) }
{
    match number {
        Some(number) => Datum::Int(number),
        None => Datum::Bad(FaultKind::Overflow),
    }
}

/// `a + b`: the sum of two numbers, or two texts joined. `Overflow` where the sum is outside 64 bits, or the text over 65,535 bytes.
pub fn add(alloc: Global, a: &Datum, b: &Datum) -> Result<Datum, Memory>
    ensures { IfOk result (λ value. value ≡ total a.now b.now) }
{
    Ok(strictly!(a, b,
        (Datum::Int(a), Datum::Int(b)) => checked(a.checked_add(*b)),
        (Datum::Text(a), Datum::Text(b)) => join_texts(alloc, a.as_slice(), b.as_slice())?,
    ))
}

/// The bytes of `a` and then those of `b`.
fn join_texts(alloc: Global, a: &[u8], b: &[u8]) -> Result<Datum, Memory>
    ensures { IfOk result (λ value. value ≡ joined a.now b.now) }
{
    let room = MAX_TEXT.saturating_sub(a.len());
    if a.len() > MAX_TEXT || b.len() > room {
        return Ok(Datum::Bad(FaultKind::Overflow));
    }
    let mut text = List::with_capacity(alloc, a.len() + b.len())?;
    text.extend(a)?;
    text.extend(b)?;
    Ok(Datum::Text(text))
}

/// `a - b` of two numbers. `Overflow` outside 64 bits.
pub fn sub(a: &Datum, b: &Datum) -> Datum
    ensures { result ≡ difference a.now b.now }
{
    strictly!(a, b, (Datum::Int(a), Datum::Int(b)) => checked(a.checked_sub(*b)),)
}

/// `a * b` of two numbers. `Overflow` outside 64 bits.
pub fn mul(a: &Datum, b: &Datum) -> Datum
    ensures { result ≡ product a.now b.now }
{
    strictly!(a, b, (Datum::Int(a), Datum::Int(b)) => checked(a.checked_mul(*b)),)
}

/// `a / b` of two numbers, rounded towards zero. `DivideByZero` where `b` is 0, `Overflow` outside 64 bits.
pub fn div(a: &Datum, b: &Datum) -> Datum
    ensures { result ≡ quotient a.now b.now }
{
    strictly!(a, b,
        (Datum::Int(_), Datum::Int(0)) => Datum::Bad(FaultKind::DivideByZero),
        (Datum::Int(a), Datum::Int(b)) => checked(a.checked_div(*b)),
    )
}

/// `a % b` of two numbers, with the sign of `a`; 0 where `b` is -1. `DivideByZero` where `b` is 0.
pub fn rem(a: &Datum, b: &Datum) -> Datum
    ensures { result ≡ remainder a.now b.now }
{
    strictly!(a, b,
        (Datum::Int(_), Datum::Int(0)) => Datum::Bad(FaultKind::DivideByZero),
        (Datum::Int(a), Datum::Int(b)) => Datum::Int(a.wrapping_rem(*b)),
    )
}

/// `-a` of a number. `Overflow` for the least one.
pub fn neg(a: &Datum) -> Datum
    ensures { result ≡ negation a.now }
{
    match a {
        Datum::Bad(kind) => Datum::Bad(*kind),
        Datum::Missing(code) => Datum::Missing(*code),
        Datum::Int(number) => checked(number.checked_neg()),
        _ => Datum::Null,
    }
}

impl CompareOp {
    /// Whether two values in this order meet the comparison.
    fn holds(self, order: Ordering) -> bool
        ensures { result ≡ holds self order }
    {
        match self {
            CompareOp::Equal => order.is_eq(),
            CompareOp::Differs => order.is_ne(),
            CompareOp::Less => order.is_lt(),
            CompareOp::AtMost => order.is_le(),
            CompareOp::More => order.is_gt(),
            CompareOp::AtLeast => order.is_ge(),
        }
    }
}

/// A comparison of two numbers, of two texts by their bytes, or of two truth values, false before true.
pub fn compare(op: CompareOp, a: &Datum, b: &Datum) -> Datum
    ensures { result ≡ comparison op a.now b.now }
{
    strictly!(a, b,
        (Datum::Int(a), Datum::Int(b)) => Datum::Truth(op.holds(a.cmp(b))),
        (Datum::Text(a), Datum::Text(b)) => Datum::Truth(op.holds(a.as_slice().cmp(b.as_slice()))),
        (Datum::Truth(a), Datum::Truth(b)) => Datum::Truth(op.holds(a.cmp(b))),
    )
}

/// `a and b`: a fault or false of `a`, a fault or false of `b`, a null of `a`, a null of `b`, else true.
pub fn and3(a: &Datum, b: &Datum) -> Datum
    ensures { result ≡ both_of a.now b.now }
{
    match (a, b) {
        (Datum::Bad(kind), _) => Datum::Bad(*kind),
        (Datum::Truth(false), _) => Datum::Truth(false),
        (_, Datum::Bad(kind)) => Datum::Bad(*kind),
        (_, Datum::Truth(false)) => Datum::Truth(false),
        (Datum::Null, _) => Datum::Null,
        (Datum::Missing(code), _) => Datum::Missing(*code),
        (_, Datum::Null) => Datum::Null,
        (_, Datum::Missing(code)) => Datum::Missing(*code),
        _ => Datum::Truth(true),
    }
}

/// `a or b`: a fault or true of `a`, a fault or true of `b`, a null of `a`, a null of `b`, else false.
pub fn or3(a: &Datum, b: &Datum) -> Datum
    ensures { result ≡ either_of a.now b.now }
{
    match (a, b) {
        (Datum::Bad(kind), _) => Datum::Bad(*kind),
        (Datum::Truth(true), _) => Datum::Truth(true),
        (_, Datum::Bad(kind)) => Datum::Bad(*kind),
        (_, Datum::Truth(true)) => Datum::Truth(true),
        (Datum::Null, _) => Datum::Null,
        (Datum::Missing(code), _) => Datum::Missing(*code),
        (_, Datum::Null) => Datum::Null,
        (_, Datum::Missing(code)) => Datum::Missing(*code),
        _ => Datum::Truth(false),
    }
}

/// `not a`.
pub fn not3(a: &Datum) -> Datum
    ensures { result ≡ opposite a.now }
{
    match a {
        Datum::Bad(kind) => Datum::Bad(*kind),
        Datum::Missing(code) => Datum::Missing(*code),
        Datum::Truth(truth) => Datum::Truth(!*truth),
        _ => Datum::Null,
    }
}
