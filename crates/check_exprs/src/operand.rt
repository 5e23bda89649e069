//! Typed expressions with their kind, and the rules of the operators over them.
ghost use Rattle.std.specs.Prelude.{◌≡◌};
ghost use Rattle.schema_grammar.specs.declared.kinds.TypeKind.{TypeKind};
ghost use Rattle.check_rules.specs.declared.rules.fault.TypeFault.{TypeFault};
ghost use Rattle.check_rules.specs.declared.rules.operator.OneForm.{OneForm};
ghost use Rattle.expr_nulls.specs.Typing.{same_kind};
ghost use Rattle.check_rules.specs.Checked.{Answers};
ghost use Rattle.check_exprs.specs.Expressions.{fits, fits_beside, is_ordered, is_text, sum_kind, common_kind, negated, denied};
ghost use Rattle.check_exprs.specs.Expressions.{calculated, equated, ranked, conjoined, disjoined, combined, chosen, applied};

use cell_values::{CompareOp, Kind, Span};
use check_rules::{BinaryOp, OneForm, TypeFault, broken};
use expr_nulls::{ArithOp, TypedExpr, let_go_expr};
use schema_grammar::TypeKind;
use std::alloc::Global;

/// A typed expression, and the place that it was read from.
#[derive(Drop)]
pub struct Operand {
    pub span: Span,
    pub expr: TypedExpr,
    /// None where the value is a null, which is of every kind.
    pub kind: Option<Kind>,
}

fn same_kind(a: Kind, b: Kind) -> bool
    ensures { result ≡ same_kind a b }
{
    matches!(
        (a, b),
        (Kind::Int64, Kind::Int64) | (Kind::Str, Kind::Str) | (Kind::Bool, Kind::Bool)
    )
}

/// Whether an operand may stand where a kind is wanted.
pub fn fits(wanted: Kind, kind: Option<Kind>) -> bool
    ensures { result ≡ fits wanted kind }
{
    match kind {
        None => true,
        Some(kind) => same_kind(kind, wanted),
    }
}

/// Whether an operand may stand behind another of the same kind.
fn fits_beside(first: Option<Kind>, kind: Option<Kind>) -> bool
    ensures { result ≡ fits_beside first kind }
{
    match first {
        None => true,
        Some(first) => fits(first, kind),
    }
}

/// Whether values of the kind have an order.
fn is_ordered(kind: Option<Kind>) -> bool
    ensures { result ≡ is_ordered kind }
{
    !matches!(kind, Some(Kind::Bool))
}

fn is_text(kind: Option<Kind>) -> bool
    ensures { result ≡ is_text kind }
{
    matches!(kind, Some(Kind::Str))
}

/// Of what `+` is.
fn sum_kind(a: Option<Kind>, b: Option<Kind>) -> Kind
    ensures { result ≡ sum_kind a b }
{
    if is_text(a) || is_text(b) {
        Kind::Str
    } else {
        Kind::Int64
    }
}

/// The kind of two that are of one.
fn common_kind(a: Option<Kind>, b: Option<Kind>) -> Option<Kind>
    ensures { result ≡ common_kind a b }
{
    match a {
        None => b,
        Some(kind) => Some(kind),
    }
}

fn wrong_type(a: &Operand) -> TypeFault
    ensures { result ≡ TypeFault.Rule a.now.span TypeKind.WrongType }
{
    broken(a.span, TypeKind::WrongType)
}

/// Lets two operands go.
pub(crate) fn let_go_both(a: Operand, b: Operand) {
    let_go_expr(a.expr);
    let_go_expr(b.expr);
}

/// Prefix `-`.
pub(crate) fn negated(alloc: Global, span: Span, a: Operand) -> Result<Operand, TypeFault>
    ensures { Answers result (negated span a) }
{
    if !fits(Kind::Int64, a.kind) {
        let fault = wrong_type(&a);
        let_go_expr(a.expr);
        return Err(fault);
    }
    let expr = TypedExpr::neg(alloc, a.expr)?;
    Ok(Operand {
        span,
        expr,
        kind: Some(Kind::Int64),
    })
}

/// `not`.
pub(crate) fn denied(alloc: Global, span: Span, a: Operand) -> Result<Operand, TypeFault>
    ensures { Answers result (denied span a) }
{
    if !fits(Kind::Bool, a.kind) {
        let fault = wrong_type(&a);
        let_go_expr(a.expr);
        return Err(fault);
    }
    let expr = TypedExpr::not(alloc, a.expr)?;
    Ok(Operand {
        span,
        expr,
        kind: Some(Kind::Bool),
    })
}

/// An operator on two of this kind.
fn calculated(
    alloc: Global,
    span: Span,
    op: ArithOp,
    kind: Kind,
    a: Operand,
    b: Operand,
) -> Result<Operand, TypeFault>
    ensures { Answers result (calculated span op kind a b) }
{
    if !fits(kind, a.kind) {
        let fault = wrong_type(&a);
        let_go_both(a, b);
        return Err(fault);
    }
    if !fits(kind, b.kind) {
        let fault = wrong_type(&b);
        let_go_both(a, b);
        return Err(fault);
    }
    let expr = TypedExpr::arith(alloc, op, a.expr, b.expr)?;
    Ok(Operand {
        span,
        expr,
        kind: Some(kind),
    })
}

/// `=` and `<>`.
fn equated(
    alloc: Global,
    span: Span,
    op: CompareOp,
    a: Operand,
    b: Operand,
) -> Result<Operand, TypeFault>
    ensures { Answers result (equated span op a b) }
{
    if !fits_beside(a.kind, b.kind) {
        let fault = wrong_type(&b);
        let_go_both(a, b);
        return Err(fault);
    }
    let expr = TypedExpr::compare(alloc, op, a.expr, b.expr)?;
    Ok(Operand {
        span,
        expr,
        kind: Some(Kind::Bool),
    })
}

/// `<`, `<=`, `>` and `>=`.
fn ranked(
    alloc: Global,
    span: Span,
    op: CompareOp,
    a: Operand,
    b: Operand,
) -> Result<Operand, TypeFault>
    ensures { Answers result (ranked span op a b) }
{
    if !is_ordered(a.kind) {
        let fault = wrong_type(&a);
        let_go_both(a, b);
        return Err(fault);
    }
    if !is_ordered(b.kind) || !fits_beside(a.kind, b.kind) {
        let fault = wrong_type(&b);
        let_go_both(a, b);
        return Err(fault);
    }
    let expr = TypedExpr::compare(alloc, op, a.expr, b.expr)?;
    Ok(Operand {
        span,
        expr,
        kind: Some(Kind::Bool),
    })
}

/// `and`.
fn conjoined(alloc: Global, span: Span, a: Operand, b: Operand) -> Result<Operand, TypeFault>
    ensures { Answers result (conjoined span a b) }
{
    if !fits(Kind::Bool, a.kind) {
        let fault = wrong_type(&a);
        let_go_both(a, b);
        return Err(fault);
    }
    if !fits(Kind::Bool, b.kind) {
        let fault = wrong_type(&b);
        let_go_both(a, b);
        return Err(fault);
    }
    let expr = TypedExpr::and(alloc, a.expr, b.expr)?;
    Ok(Operand {
        span,
        expr,
        kind: Some(Kind::Bool),
    })
}

/// `or`.
fn disjoined(alloc: Global, span: Span, a: Operand, b: Operand) -> Result<Operand, TypeFault>
    ensures { Answers result (disjoined span a b) }
{
    if !fits(Kind::Bool, a.kind) {
        let fault = wrong_type(&a);
        let_go_both(a, b);
        return Err(fault);
    }
    if !fits(Kind::Bool, b.kind) {
        let fault = wrong_type(&b);
        let_go_both(a, b);
        return Err(fault);
    }
    let expr = TypedExpr::or(alloc, a.expr, b.expr)?;
    Ok(Operand {
        span,
        expr,
        kind: Some(Kind::Bool),
    })
}

/// An operator between two operands.
pub(crate) fn combined(
    alloc: Global,
    span: Span,
    op: BinaryOp,
    a: Operand,
    b: Operand,
) -> Result<Operand, TypeFault>
    ensures { Answers result (combined span op a b) }
{
    match op {
        BinaryOp::Or => disjoined(alloc, span, a, b),
        BinaryOp::And => conjoined(alloc, span, a, b),
        BinaryOp::Equal => equated(alloc, span, CompareOp::Equal, a, b),
        BinaryOp::Differs => equated(alloc, span, CompareOp::Differs, a, b),
        BinaryOp::Less => ranked(alloc, span, CompareOp::Less, a, b),
        BinaryOp::AtMost => ranked(alloc, span, CompareOp::AtMost, a, b),
        BinaryOp::More => ranked(alloc, span, CompareOp::More, a, b),
        BinaryOp::AtLeast => ranked(alloc, span, CompareOp::AtLeast, a, b),
        BinaryOp::Add => {
            let kind = sum_kind(a.kind, b.kind);
            calculated(alloc, span, ArithOp::Add, kind, a, b)
        }
        BinaryOp::Sub => calculated(alloc, span, ArithOp::Sub, Kind::Int64, a, b),
        BinaryOp::Mul => calculated(alloc, span, ArithOp::Mul, Kind::Int64, a, b),
        BinaryOp::Div => calculated(alloc, span, ArithOp::Div, Kind::Int64, a, b),
        BinaryOp::Rem => calculated(alloc, span, ArithOp::Rem, Kind::Int64, a, b),
    }
}

/// `iif`.
pub(crate) fn chosen(
    alloc: Global,
    span: Span,
    test: Operand,
    a: Operand,
    b: Operand,
) -> Result<Operand, TypeFault>
    ensures { Answers result (chosen span test a b) }
{
    if !fits(Kind::Bool, test.kind) {
        let fault = wrong_type(&test);
        let_go_expr(test.expr);
        let_go_both(a, b);
        return Err(fault);
    }
    if !fits_beside(a.kind, b.kind) {
        let fault = wrong_type(&b);
        let_go_expr(test.expr);
        let_go_both(a, b);
        return Err(fault);
    }
    let kind = common_kind(a.kind, b.kind);
    let expr = TypedExpr::iif(alloc, test.expr, a.expr, b.expr)?;
    Ok(Operand { span, expr, kind })
}

/// `strlen`.
fn measured(alloc: Global, span: Span, a: Operand) -> Result<Operand, TypeFault>
    ensures { Answers result (applied span OneForm.StrLen a) }
{
    if !fits(Kind::Str, a.kind) {
        let fault = wrong_type(&a);
        let_go_expr(a.expr);
        return Err(fault);
    }
    let expr = TypedExpr::str_len(alloc, a.expr)?;
    Ok(Operand {
        span,
        expr,
        kind: Some(Kind::Int64),
    })
}

/// `string`.
fn spelled_out(alloc: Global, span: Span, a: Operand) -> Result<Operand, TypeFault>
    ensures { Answers result (applied span OneForm.ToText a) }
{
    if !fits(Kind::Int64, a.kind) {
        let fault = wrong_type(&a);
        let_go_expr(a.expr);
        return Err(fault);
    }
    let expr = TypedExpr::to_text(alloc, a.expr)?;
    Ok(Operand {
        span,
        expr,
        kind: Some(Kind::Str),
    })
}

/// `missing`.
fn made_null(alloc: Global, span: Span, a: Operand) -> Result<Operand, TypeFault>
    ensures { Answers result (applied span OneForm.Missing a) }
{
    if !fits(Kind::Int64, a.kind) {
        let fault = wrong_type(&a);
        let_go_expr(a.expr);
        return Err(fault);
    }
    let expr = TypedExpr::missing(alloc, a.expr)?;
    Ok(Operand {
        span,
        expr,
        kind: None,
    })
}

/// A function of one operand.
pub(crate) fn applied(
    alloc: Global,
    span: Span,
    form: OneForm,
    a: Operand,
) -> Result<Operand, TypeFault>
    ensures { Answers result (applied span form a) }
{
    match form {
        OneForm::IsNull => {
            let expr = TypedExpr::is_null(alloc, a.expr)?;
            let kind = Some(Kind::Bool);
            Ok(Operand { span, expr, kind })
        }
        OneForm::StrLen => measured(alloc, span, a),
        OneForm::ToText => spelled_out(alloc, span, a),
        OneForm::Missing => made_null(alloc, span, a),
        OneForm::Reason => {
            let expr = TypedExpr::reason(alloc, a.expr)?;
            let kind = Some(Kind::Int64);
            Ok(Operand { span, expr, kind })
        }
    }
}
