//! Expressions over coordinates as far as they are numbers, without values of other kinds.
ghost use Rattle.std.specs.Prelude.{◌≡◌, MatchOption, None as Nothing, Some as Just, slice_get};
ghost use Rattle.cell_values.specs.declared.datum.Datum.TheVariants.{Int};
ghost use Rattle.expr_nulls.specs.declared.expr.ArithOp.TheVariants.{Div, Rem};
ghost use Rattle.expr_nulls.specs.ExprValue.{calculated};
ghost use Rattle.exec_cellwise.specs.Inner.Quickly.{number_in, number_of, on_numbers};

use cell_values::Datum;
use expr_nulls::{ArithOp, ExprNode, TypedExpr};

fn divide(a: i64, b: i64) -> Option<i64>
    ensures { result ≡ number_in (calculated Div (Int a) (Int b)) }
{
    match b {
        0 => None,
        _ => a.checked_div(b),
    }
}

fn remain(a: i64, b: i64) -> Option<i64>
    ensures { result ≡ number_in (calculated Rem (Int a) (Int b)) }
{
    match b {
        0 => None,
        _ => Some(a.wrapping_rem(b)),
    }
}

fn calculate(op: ArithOp, a: i64, b: i64) -> Option<i64>
    ensures { result ≡ number_in (calculated op (Int a) (Int b)) }
{
    match op {
        ArithOp::Add => a.checked_add(b),
        ArithOp::Sub => a.checked_sub(b),
        ArithOp::Mul => a.checked_mul(b),
        ArithOp::Div => divide(a, b),
        ArithOp::Rem => remain(a, b),
    }
}

fn calculate_both(op: ArithOp, a: Option<i64>, b: Option<i64>) -> Option<i64>
    ensures { result ≡ on_numbers (λ x y. number_in (calculated op (Int x) (Int y))) a b }
{
    match (a, b) {
        (Some(a), Some(b)) => calculate(op, a, b),
        _ => None,
    }
}

fn number_in(value: &Datum) -> Option<i64>
    ensures { result ≡ number_in value.now }
{
    match value {
        Datum::Int(number) => Some(*number),
        _ => None,
    }
}

fn number_at(at: &[i64], place: u32) -> Option<i64>
    ensures { result ≡ slice_get at.now place }
{
    match at.get(place as usize) {
        Some(number) => Some(*number),
        None => None,
    }
}

/// The number that an expression is at a coordinate, as far as it is found.
pub(crate) fn number_of(value: &TypedExpr, at: &[i64]) -> Option<i64>
    ensures { result ≡ number_of value.now at.now }
{
    match &value.node {
        ExprNode::Lit(value) => number_in(value),
        ExprNode::Dim(place) => number_at(at, *place),
        ExprNode::Arith(op, a, b) => calculate_both(*op, number_of(a, at), number_of(b, at)),
        _ => None,
    }
}
