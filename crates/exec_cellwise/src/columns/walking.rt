//! Expressions over rows in columns, without a list of values for each row.
ghost use Rattle.std.specs.Prelude.{◌≡◌, ◌<◌, [], length, slice_index_or};
ghost use Rattle.expr_nulls.specs.ExprValue.{number_at};
ghost use Rattle.array_rows.specs.Seen.{seen};
ghost use Rattle.exec_cellwise.specs.Inner.Smalls.{names_dimension, small_at, small_of};

use crate::columns::smalls::{both, calculate_both, compare_both, either};
use array_rows::{Rows, Small, small_value};
use expr_nulls::{ExprNode, TypedExpr};

/// The number in a place of a coordinate.
fn number_at(at: &[i64], place: usize) -> Small
    ensures { result ≡ seen (number_at at.now place) }
{
    match at.get(place) {
        Some(number) => Small::Number(*number),
        None => Small::Other,
    }
}

/// Whether a walk over an expression comes to a number of a coordinate.
pub(crate) fn names_dimension(value: &TypedExpr) -> bool
    ensures { result ≡ names_dimension value.now }
{
    match &value.node {
        ExprNode::Dim(_) => true,
        ExprNode::Arith(_, a, b) => names_dimension(a) || names_dimension(b),
        ExprNode::Compare(_, a, b) => names_dimension(a) || names_dimension(b),
        ExprNode::And(a, b) => names_dimension(a) || names_dimension(b),
        ExprNode::Or(a, b) => names_dimension(a) || names_dimension(b),
        _ => false,
    }
}

/// What is found of an expression at a row, which stands at a coordinate.
pub(crate) fn walk_at(value: &TypedExpr, at: &[i64], rows: &Rows, k: usize) -> Small
    requires { k < length rows.now }
    ensures { result ≡ small_at value.now at.now (slice_index_or rows.now k []) }
{
    match &value.node {
        ExprNode::Lit(value) => small_value(value),
        ExprNode::Attr(place) => rows.small(*place as usize, k),
        ExprNode::Dim(place) => number_at(at, *place as usize),
        ExprNode::Arith(op, a, b) => {
            calculate_both(*op, walk_at(a, at, rows, k), walk_at(b, at, rows, k))
        }
        ExprNode::Compare(op, a, b) => {
            compare_both(*op, walk_at(a, at, rows, k), walk_at(b, at, rows, k))
        }
        ExprNode::And(a, b) => both(walk_at(a, at, rows, k), walk_at(b, at, rows, k)),
        ExprNode::Or(a, b) => either(walk_at(a, at, rows, k), walk_at(b, at, rows, k)),
        _ => Small::Other,
    }
}

/// What is found of an expression at a row, wherever it stands.
pub fn walk(test: &TypedExpr, rows: &Rows, k: usize) -> Small
    requires { k < length rows.now }
    ensures { result ≡ small_of test.now (slice_index_or rows.now k []) }
{
    walk_at(test, &[], rows, k)
}
