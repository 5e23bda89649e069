//! The value of an expression at a cell.
ghost use Rattle.std.specs.Prelude.{◌≡◌, IsTrue, IfOk, slice_index_or};
ghost use Rattle.expr_nulls.specs.Expr.{minus, denial, calculation, relation, conjunction, disjunction};
ghost use Rattle.expr_nulls.specs.Expr.{conditional, null_test, byte_length, decimal_text, coded_null, null_code};
ghost use Rattle.expr_nulls.specs.ExprValue.{value_of, calculated, number_at};
ghost use Rattle.expr_nulls.specs.Typing.{TypedValuesFit};
ghost use Rattle.expr_nulls.specs.Inner.Seen.{datum_of, DecidesBoth, DecidesEither};

use crate::functions::{make_null, measure_text, spell_number, tell_reason, test_null};
use crate::{ArithOp, ExprNode, TypedExpr};
use cell_values::{
    CompareOp, Coord, Datum, Memory, add, and3, compare, div, mul, neg, not3, or3, rem, sub,
};
use std::alloc::Global;

/// A value of the expression or of the cell, or one that was computed. So no text is copied where it is only looked at.
#[derive(Drop)]
enum Seen<'a> {
    Held(&'a Datum),
    Made(Datum),
}

impl<'a> Seen<'a> {
    fn get(&self) -> &Datum
        ensures { result.now ≡ datum_of self.now }
    {
        match self {
            Seen::Held(value) => value,
            Seen::Made(value) => value,
        }
    }

    /// The value itself, copied where it is held.
    fn into_datum(self) -> Result<Datum, Memory>
        ensures { IfOk result (λ value. value ≡ datum_of self.entry) }
    {
        match self {
            Seen::Held(value) => value.copy(),
            Seen::Made(value) => Ok(value),
        }
    }
}

/// The value of an expression at a coordinate, over the values of the cell there.
///
/// Memory is taken for texts alone: for each that is joined or spelled, and for the result's.
pub fn eval(alloc: Global, expr: &TypedExpr, at: &Coord, values: &[Datum]) -> Result<Datum, Memory>
    ensures { IfOk result (λ value. value ≡ value_of expr.now at.now.items values.now) }
{
    see(alloc, expr, at, values)?.into_datum()
}

/// The value of an expression, not copied where it stands in the expression or in the cell.
#[cycle(see)]
fn see<'a>(
    alloc: Global,
    expr: &'a TypedExpr,
    at: &Coord,
    values: &'a [Datum],
) -> Result<Seen<'a>, Memory>
    ensures { IfOk result (λ seen. datum_of seen ≡ value_of expr.now at.now.items values.now) }
{
    match &expr.node {
        ExprNode::Lit(value) => Ok(Seen::Held(value)),
        ExprNode::Attr(place) => Ok(attribute(values, *place)),
        ExprNode::Dim(place) => Ok(Seen::Made(dimension(at, *place))),
        ExprNode::Neg(a) => see_negation(alloc, a, at, values),
        ExprNode::Not(a) => see_denial(alloc, a, at, values),
        ExprNode::Arith(op, a, b) => see_calculation(alloc, *op, a, b, at, values),
        ExprNode::Compare(op, a, b) => see_comparison(alloc, *op, a, b, at, values),
        ExprNode::And(a, b) => see_and(alloc, a, b, at, values),
        ExprNode::Or(a, b) => see_or(alloc, a, b, at, values),
        ExprNode::Iif(test, a, b) => see_iif(alloc, test, a, b, at, values),
        ExprNode::IsNull(a) => see_test(alloc, a, at, values),
        ExprNode::StrLen(a) => see_length(alloc, a, at, values),
        ExprNode::ToText(a) => see_text(alloc, a, at, values),
        ExprNode::Missing(a) => see_missing(alloc, a, at, values),
        ExprNode::Reason(a) => see_reason(alloc, a, at, values),
    }
}

/// The value of prefix `-`.
#[cycle(see)]
fn see_negation<'a>(
    alloc: Global,
    a: &'a TypedExpr,
    at: &Coord,
    values: &'a [Datum],
) -> Result<Seen<'a>, Memory>
    ensures { IfOk result (λ seen. datum_of seen ≡ value_of (minus a.now) at.now.items values.now) }
{
    let a = see(alloc, a, at, values)?;
    Ok(Seen::Made(neg(a.get())))
}

/// The value of `not`.
#[cycle(see)]
fn see_denial<'a>(
    alloc: Global,
    a: &'a TypedExpr,
    at: &Coord,
    values: &'a [Datum],
) -> Result<Seen<'a>, Memory>
    ensures { IfOk result (λ seen. datum_of seen ≡ value_of (denial a.now) at.now.items values.now) }
{
    let a = see(alloc, a, at, values)?;
    Ok(Seen::Made(not3(a.get())))
}

/// The value of `is_null`.
#[cycle(see)]
fn see_test<'a>(
    alloc: Global,
    a: &'a TypedExpr,
    at: &Coord,
    values: &'a [Datum],
) -> Result<Seen<'a>, Memory>
    ensures { IfOk result (λ seen. datum_of seen ≡ value_of (null_test a.now) at.now.items values.now) }
{
    let a = see(alloc, a, at, values)?;
    Ok(Seen::Made(test_null(a.get())))
}

/// The value of `strlen`.
#[cycle(see)]
fn see_length<'a>(
    alloc: Global,
    a: &'a TypedExpr,
    at: &Coord,
    values: &'a [Datum],
) -> Result<Seen<'a>, Memory>
    ensures { IfOk result (λ seen. datum_of seen ≡ value_of (byte_length a.now) at.now.items values.now) }
{
    let a = see(alloc, a, at, values)?;
    Ok(Seen::Made(measure_text(a.get())))
}

/// The value of `string`.
#[cycle(see)]
fn see_text<'a>(
    alloc: Global,
    a: &'a TypedExpr,
    at: &Coord,
    values: &'a [Datum],
) -> Result<Seen<'a>, Memory>
    ensures { IfOk result (λ seen. datum_of seen ≡ value_of (decimal_text a.now) at.now.items values.now) }
{
    let number = see(alloc, a, at, values)?;
    Ok(Seen::Made(spell_number(alloc, number.get())?))
}

/// The value of `missing`.
#[cycle(see)]
fn see_missing<'a>(
    alloc: Global,
    a: &'a TypedExpr,
    at: &Coord,
    values: &'a [Datum],
) -> Result<Seen<'a>, Memory>
    ensures { IfOk result (λ seen. datum_of seen ≡ value_of (coded_null a.now) at.now.items values.now) }
{
    let a = see(alloc, a, at, values)?;
    Ok(Seen::Made(make_null(a.get())))
}

/// The value of `missing_reason`.
#[cycle(see)]
fn see_reason<'a>(
    alloc: Global,
    a: &'a TypedExpr,
    at: &Coord,
    values: &'a [Datum],
) -> Result<Seen<'a>, Memory>
    ensures { IfOk result (λ seen. datum_of seen ≡ value_of (null_code a.now) at.now.items values.now) }
{
    let a = see(alloc, a, at, values)?;
    Ok(Seen::Made(tell_reason(a.get())))
}

/// The value of an operator on two operands.
#[cycle(see)]
fn see_calculation<'a>(
    alloc: Global,
    op: ArithOp,
    a: &'a TypedExpr,
    b: &'a TypedExpr,
    at: &Coord,
    values: &'a [Datum],
) -> Result<Seen<'a>, Memory>
    ensures { IfOk result (λ seen. datum_of seen ≡ value_of (calculation op a.now b.now) at.now.items values.now) }
{
    let a = see(alloc, a, at, values)?;
    let b = see(alloc, b, at, values)?;
    Ok(Seen::Made(calculate(alloc, op, a.get(), b.get())?))
}

/// The value of a comparison.
#[cycle(see)]
fn see_comparison<'a>(
    alloc: Global,
    op: CompareOp,
    a: &'a TypedExpr,
    b: &'a TypedExpr,
    at: &Coord,
    values: &'a [Datum],
) -> Result<Seen<'a>, Memory>
    ensures { IfOk result (λ seen. datum_of seen ≡ value_of (relation op a.now b.now) at.now.items values.now) }
{
    let a = see(alloc, a, at, values)?;
    let b = see(alloc, b, at, values)?;
    Ok(Seen::Made(compare(op, a.get(), b.get())))
}

/// The value of `and`. The right operand is looked at only where the left one does not decide.
#[cycle(see)]
fn see_and<'a>(
    alloc: Global,
    a: &'a TypedExpr,
    b: &'a TypedExpr,
    at: &Coord,
    values: &'a [Datum],
) -> Result<Seen<'a>, Memory>
    ensures { IfOk result (λ seen. datum_of seen ≡ value_of (conjunction a.now b.now) at.now.items values.now) }
{
    let a = see(alloc, a, at, values)?;
    if decides_and(a.get()) {
        return Ok(a);
    }
    let b = see(alloc, b, at, values)?;
    Ok(Seen::Made(and3(a.get(), b.get())))
}

/// The value of `or`. The right operand is looked at only where the left one does not decide.
#[cycle(see)]
fn see_or<'a>(
    alloc: Global,
    a: &'a TypedExpr,
    b: &'a TypedExpr,
    at: &Coord,
    values: &'a [Datum],
) -> Result<Seen<'a>, Memory>
    ensures { IfOk result (λ seen. datum_of seen ≡ value_of (disjunction a.now b.now) at.now.items values.now) }
{
    let a = see(alloc, a, at, values)?;
    if decides_or(a.get()) {
        return Ok(a);
    }
    let b = see(alloc, b, at, values)?;
    Ok(Seen::Made(or3(a.get(), b.get())))
}

/// The value of `iif`. Of the last two operands only the one that is taken is looked at.
#[cycle(see)]
fn see_iif<'a>(
    alloc: Global,
    test: &'a TypedExpr,
    a: &'a TypedExpr,
    b: &'a TypedExpr,
    at: &Coord,
    values: &'a [Datum],
) -> Result<Seen<'a>, Memory>
    ensures { IfOk result (λ seen. datum_of seen ≡ value_of (conditional test.now a.now b.now) at.now.items values.now) }
{
    let test = see(alloc, test, at, values)?;
    match test.get() {
        Datum::Truth(true) => see(alloc, a, at, values),
        Datum::Truth(false) => see(alloc, b, at, values),
        _ => Ok(test),
    }
}

/// The value in a place of the cell, null where there is none.
fn attribute<'a>(values: &'a [Datum], place: u32) -> Seen<'a>
    ensures { datum_of result ≡ slice_index_or values.now place Datum.Null }
{
    match values.get(place as usize) {
        Some(value) => Seen::Held(value),
        None => Seen::Made(Datum::Null),
    }
}

/// The number in a place of the coordinate, null where there is none.
fn dimension(at: &Coord, place: u32) -> Datum
    ensures { result ≡ number_at at.now.items place }
{
    match at.as_slice().get(place as usize) {
        Some(number) => Datum::Int(*number),
        None => Datum::Null,
    }
}

/// What an operator makes of two values.
fn calculate(alloc: Global, op: ArithOp, a: &Datum, b: &Datum) -> Result<Datum, Memory>
    ensures { IfOk result (λ value. value ≡ calculated op a.now b.now) }
{
    match op {
        ArithOp::Add => add(alloc, a, b),
        ArithOp::Sub => Ok(sub(a, b)),
        ArithOp::Mul => Ok(mul(a, b)),
        ArithOp::Div => Ok(div(a, b)),
        ArithOp::Rem => Ok(rem(a, b)),
    }
}

/// Whether a value is that of `and` for each second operand.
fn decides_and(value: &Datum) -> bool
    ensures { IsTrue result → DecidesBoth value.now }
{
    matches!(value, Datum::Bad(_) | Datum::Truth(false))
}

/// Whether a value is that of `or` for each second operand.
fn decides_or(value: &Datum) -> bool
    ensures { IsTrue result → DecidesEither value.now }
{
    matches!(value, Datum::Bad(_) | Datum::Truth(true))
}

/// An expression of a kind has a value of this kind, wherever the cell's values are of their attributes' kinds.
pub fn typed_values_fit()
    ensures { TypedValuesFit }
{}
