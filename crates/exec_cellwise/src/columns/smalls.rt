//! Operators on values that take no memory of their own.
ghost use Rattle.std.specs.Prelude.{◌≡◌, MatchOption};
ghost use Rattle.cell_values.specs.declared.datum.Datum.TheVariants.{Int};
ghost use Rattle.cell_values.specs.Table.{comparison};
ghost use Rattle.expr_nulls.specs.declared.expr.ArithOp.TheVariants.{Div, Rem};
ghost use Rattle.expr_nulls.specs.ExprValue.{calculated};
ghost use Rattle.array_rows.specs.Seen.{seen};
ghost use Rattle.exec_cellwise.specs.Inner.Smalls.{on_smalls, small_both, small_either};

use array_rows::Small;
use cell_values::CompareOp;
use expr_nulls::ArithOp;

fn checked(number: Option<i64>) -> Small
    ensures { MatchOption number (result ≡ Small.Other) (λ n. result ≡ Small.Number n) }
{
    match number {
        Some(number) => Small::Number(number),
        None => Small::Other,
    }
}

fn divide(a: i64, b: i64) -> Small
    ensures { result ≡ seen (calculated Div (Int a) (Int b)) }
{
    match b {
        0 => Small::Other,
        _ => checked(a.checked_div(b)),
    }
}

fn remain(a: i64, b: i64) -> Small
    ensures { result ≡ seen (calculated Rem (Int a) (Int b)) }
{
    match b {
        0 => Small::Other,
        _ => Small::Number(a.wrapping_rem(b)),
    }
}

fn calculate(op: ArithOp, a: i64, b: i64) -> Small
    ensures { result ≡ seen (calculated op (Int a) (Int b)) }
{
    match op {
        ArithOp::Add => checked(a.checked_add(b)),
        ArithOp::Sub => checked(a.checked_sub(b)),
        ArithOp::Mul => checked(a.checked_mul(b)),
        ArithOp::Div => divide(a, b),
        ArithOp::Rem => remain(a, b),
    }
}

fn holds(op: CompareOp, a: i64, b: i64) -> Small
    ensures { result ≡ seen (comparison op (Int a) (Int b)) }
{
    let order = a.cmp(&b);
    Small::Truth(match op {
        CompareOp::Equal => order.is_eq(),
        CompareOp::Differs => order.is_ne(),
        CompareOp::Less => order.is_lt(),
        CompareOp::AtMost => order.is_le(),
        CompareOp::More => order.is_gt(),
        CompareOp::AtLeast => order.is_ge(),
    })
}

pub(crate) fn calculate_both(op: ArithOp, a: Small, b: Small) -> Small
    ensures { result ≡ on_smalls (λ x y. seen (calculated op (Int x) (Int y))) a b }
{
    match (a, b) {
        (Small::Number(a), Small::Number(b)) => calculate(op, a, b),
        _ => Small::Other,
    }
}

pub(crate) fn compare_both(op: CompareOp, a: Small, b: Small) -> Small
    ensures { result ≡ on_smalls (λ x y. seen (comparison op (Int x) (Int y))) a b }
{
    match (a, b) {
        (Small::Number(a), Small::Number(b)) => holds(op, a, b),
        _ => Small::Other,
    }
}

pub(crate) fn both(a: Small, b: Small) -> Small
    ensures { result ≡ small_both a b }
{
    match (a, b) {
        (Small::Truth(a), Small::Truth(b)) => Small::Truth(a && b),
        _ => Small::Other,
    }
}

pub(crate) fn either(a: Small, b: Small) -> Small
    ensures { result ≡ small_either a b }
{
    match (a, b) {
        (Small::Truth(a), Small::Truth(b)) => Small::Truth(a || b),
        _ => Small::Other,
    }
}
