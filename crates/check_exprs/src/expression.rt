//! Expressions: from a tree to a typed expression over the attributes and dimensions of a source.
ghost use Rattle.std.specs.Prelude.{◌≡◌, ◌≤◌, ◌<◌, Some, None, Ok, length, IfSome};
ghost use Rattle.check_rules.specs.Term.{to_terms};
ghost use Rattle.expr_nulls.specs.Expr.{literal};
ghost use Rattle.check_rules.specs.Checked.{Answers, then};
ghost use Rattle.check_rules.specs.Operators.{operator_named, form_named};
ghost use Rattle.check_exprs.specs.Expressions.{operand, attribute_place, dimension_place, kind_at, named, negated};
ghost use Rattle.check_exprs.specs.Expressions.{denied, combined, chosen, applied, bracketed, typed, typed_call};
ghost use Rattle.check_rules.specs.declared.rules.operator.Form.{Form};

use crate::Operand;
use crate::operand::{applied, chosen, combined, denied, let_go_both, negated};
use cell_values::{Attribute, Datum, Dimension, Kind, Span};
use check_rules::{
    BinaryOp, Form, Node, OneForm, Tree, TypeFault, broken, form_named, name_span, operator_named,
    same_name,
};
use expr_nulls::{TypedExpr, let_go_expr};
use schema_grammar::TypeKind;
use std::alloc::Global;

fn leaf(span: Span, value: Datum, kind: Option<Kind>) -> Operand
    ensures { result ≡ operand span (literal value) kind }
{
    let expr = TypedExpr::lit(value);
    Operand { span, expr, kind }
}

/// The place of the attribute of this name, from 0.
pub fn attribute_place(attributes: &[Attribute], name: &[u8]) -> Option<usize>
    ensures value { result ≡ attribute_place attributes.now name.now }
    ensures within { IfSome result (λ place. place < length attributes.now) }
{
    attributes
        .iter()
        .position(|attribute| same_name(&attribute.name, name))
}

/// The place of the dimension of this name, from 0.
pub fn dimension_place(dimensions: &[Dimension], name: &[u8]) -> Option<usize>
    ensures value { result ≡ dimension_place dimensions.now name.now }
    ensures within { IfSome result (λ place. place < length dimensions.now) }
{
    dimensions
        .iter()
        .position(|dimension| same_name(&dimension.name, name))
}

fn kind_at(attributes: &[Attribute], place: usize) -> Option<Kind>
    ensures { result ≡ kind_at attributes.now place }
{
    match attributes.get(place) {
        Some(attribute) => Some(attribute.kind),
        None => None,
    }
}

/// What a name stands for.
fn named(
    attributes: &[Attribute],
    dimensions: &[Dimension],
    span: Span,
    name: &[u8],
) -> Result<Operand, TypeFault>
    requires attributes { length attributes.now ≤ 64 }
    requires dimensions { length dimensions.now ≤ 6 }
    ensures { Answers result (named attributes.now dimensions.now span name.now) }
{
    if let Some(place) = attribute_place(attributes, name) {
        let kind = kind_at(attributes, place);
        let expr = TypedExpr::attr(place as u32);
        return Ok(Operand { span, expr, kind });
    }
    match dimension_place(dimensions, name) {
        Some(place) => {
            let expr = TypedExpr::dim(place as u32);
            let kind = Some(Kind::Int64);
            Ok(Operand { span, expr, kind })
        }
        None => Err(broken(span, TypeKind::UnknownName)),
    }
}

/// The typed expression over attributes and dimensions that a tree is, or the first rule that it breaks.
#[cycle(expression)]
pub fn typed(
    alloc: Global,
    attributes: &[Attribute],
    dimensions: &[Dimension],
    tree: &Tree,
) -> Result<Operand, TypeFault>
    requires attributes { length attributes.now ≤ 64 }
    requires dimensions { length dimensions.now ≤ 6 }
    ensures { Answers result (typed attributes.now dimensions.now tree.now) }
{
    let span = tree.span;
    match &tree.node {
        Node::Number(number) => Ok(leaf(span, Datum::Int(*number), Some(Kind::Int64))),
        Node::Text(text) => Ok(leaf(span, Datum::Text(text.copy()?), Some(Kind::Str))),
        Node::Truth(truth) => Ok(leaf(span, Datum::Truth(*truth), Some(Kind::Bool))),
        Node::Null => Ok(leaf(span, Datum::Null, None)),
        Node::Missing(code) => Ok(leaf(span, Datum::Missing(*code), None)),
        Node::Ref(name) => named(attributes, dimensions, span, name.as_slice()),
        Node::Minus(a) => typed_minus(alloc, attributes, dimensions, span, a),
        Node::Not(a) => typed_not(alloc, attributes, dimensions, span, a),
        Node::Binary(op, a, b) => typed_binary(alloc, attributes, dimensions, span, *op, a, b),
        Node::Group(a) => typed_group(alloc, attributes, dimensions, span, a),
        Node::Call(name, operands) => typed_call(
            alloc,
            attributes,
            dimensions,
            span,
            name.as_slice(),
            operands.as_slice(),
        ),
        Node::Version(_, _) | Node::Schema(_) | Node::Star | Node::As(_, _) | Node::Create(_, _) =>
            Err(broken(span, TypeKind::WrongType)),
    }
}

#[cycle(expression)]
#[tactic(auto, using(check_rules::proofs::Steps::ok_then, check_rules::proofs::Steps::err_then))]
fn typed_minus(
    alloc: Global,
    attributes: &[Attribute],
    dimensions: &[Dimension],
    span: Span,
    a: &Tree,
) -> Result<Operand, TypeFault>
    requires attributes { length attributes.now ≤ 64 }
    requires dimensions { length dimensions.now ≤ 6 }
    ensures { Answers result (then (typed attributes.now dimensions.now a.now) (negated span)) }
{
    let a = typed(alloc, attributes, dimensions, a)?;
    negated(alloc, span, a)
}

#[cycle(expression)]
#[tactic(auto, using(check_rules::proofs::Steps::ok_then, check_rules::proofs::Steps::err_then))]
fn typed_not(
    alloc: Global,
    attributes: &[Attribute],
    dimensions: &[Dimension],
    span: Span,
    a: &Tree,
) -> Result<Operand, TypeFault>
    requires attributes { length attributes.now ≤ 64 }
    requires dimensions { length dimensions.now ≤ 6 }
    ensures { Answers result (then (typed attributes.now dimensions.now a.now) (denied span)) }
{
    let a = typed(alloc, attributes, dimensions, a)?;
    denied(alloc, span, a)
}

#[cycle(expression)]
#[tactic(auto, using(check_rules::proofs::Steps::ok_then, check_rules::proofs::Steps::err_then))]
fn typed_binary(
    alloc: Global,
    attributes: &[Attribute],
    dimensions: &[Dimension],
    span: Span,
    op: BinaryOp,
    a: &Tree,
    b: &Tree,
) -> Result<Operand, TypeFault>
    requires attributes { length attributes.now ≤ 64 }
    requires dimensions { length dimensions.now ≤ 6 }
    ensures { Answers result (then (typed attributes.now dimensions.now a.now) (λ x. then (typed attributes.now dimensions.now b.now) (combined span op x))) }
{
    let a = typed(alloc, attributes, dimensions, a)?;
    match typed(alloc, attributes, dimensions, b) {
        Ok(b) => combined(alloc, span, op, a, b),
        Err(fault) => {
            let_go_expr(a.expr);
            Err(fault)
        }
    }
}

#[cycle(expression)]
#[tactic(auto, using(check_rules::proofs::Steps::ok_then, check_rules::proofs::Steps::err_then))]
fn typed_group(
    alloc: Global,
    attributes: &[Attribute],
    dimensions: &[Dimension],
    span: Span,
    a: &Tree,
) -> Result<Operand, TypeFault>
    requires attributes { length attributes.now ≤ 64 }
    requires dimensions { length dimensions.now ≤ 6 }
    ensures { Answers result (then (typed attributes.now dimensions.now a.now) (λ x. Ok (bracketed span x))) }
{
    let Operand { expr, kind, .. } = typed(alloc, attributes, dimensions, a)?;
    Ok(Operand { span, expr, kind })
}

/// A call, whose name and number of operands are tested first.
#[cycle(expression)]
fn typed_call(
    alloc: Global,
    attributes: &[Attribute],
    dimensions: &[Dimension],
    span: Span,
    name: &[u8],
    operands: &[Tree],
) -> Result<Operand, TypeFault>
    requires attributes { length attributes.now ≤ 64 }
    requires dimensions { length dimensions.now ≤ 6 }
    ensures { Answers result (typed_call attributes.now dimensions.now span name.now (operator_named name.now) (form_named name.now) (to_terms operands.now)) }
{
    if operator_named(name).is_some() {
        return Err(broken(span, TypeKind::WrongType));
    }
    match form_named(name) {
        None => Err(broken(name_span(span, name), TypeKind::UnknownName)),
        Some(Form::Iif) => typed_iif(alloc, attributes, dimensions, span, name, operands),
        Some(Form::One(form)) => {
            typed_one(alloc, attributes, dimensions, span, name, form, operands)
        }
    }
}

/// A choice of three operands.
#[cycle(expression)]
#[tactic(auto, using(check_rules::proofs::Steps::ok_then, check_rules::proofs::Steps::err_then))]
fn typed_choice(
    alloc: Global,
    attributes: &[Attribute],
    dimensions: &[Dimension],
    span: Span,
    test: &Tree,
    a: &Tree,
    b: &Tree,
) -> Result<Operand, TypeFault>
    requires attributes { length attributes.now ≤ 64 }
    requires dimensions { length dimensions.now ≤ 6 }
    ensures { Answers result (then (typed attributes.now dimensions.now test.now)
        (λ x. then (typed attributes.now dimensions.now a.now) (λ y. then (typed attributes.now dimensions.now b.now) (chosen span x y)))) }
{
    let test = typed(alloc, attributes, dimensions, test)?;
    match typed(alloc, attributes, dimensions, a) {
        Ok(a) => match typed(alloc, attributes, dimensions, b) {
            Ok(b) => chosen(alloc, span, test, a, b),
            Err(fault) => {
                let_go_both(test, a);
                Err(fault)
            }
        },
        Err(fault) => {
            let_go_expr(test.expr);
            Err(fault)
        }
    }
}

/// A function on its operand.
#[cycle(expression)]
#[tactic(auto, using(check_rules::proofs::Steps::ok_then, check_rules::proofs::Steps::err_then))]
fn typed_operand(
    alloc: Global,
    attributes: &[Attribute],
    dimensions: &[Dimension],
    span: Span,
    form: OneForm,
    a: &Tree,
) -> Result<Operand, TypeFault>
    requires attributes { length attributes.now ≤ 64 }
    requires dimensions { length dimensions.now ≤ 6 }
    ensures { Answers result (then (typed attributes.now dimensions.now a.now) (applied span form)) }
{
    let a = typed(alloc, attributes, dimensions, a)?;
    applied(alloc, span, form, a)
}

/// `iif`, of three operands.
#[cycle(expression)]
fn typed_iif(
    alloc: Global,
    attributes: &[Attribute],
    dimensions: &[Dimension],
    span: Span,
    name: &[u8],
    operands: &[Tree],
) -> Result<Operand, TypeFault>
    requires attributes { length attributes.now ≤ 64 }
    requires dimensions { length dimensions.now ≤ 6 }
    ensures { Answers result (typed_call attributes.now dimensions.now span name.now None (Some Form.Iif) (to_terms operands.now)) }
{
    match operands {
        [test, a, b] => typed_choice(alloc, attributes, dimensions, span, test, a, b),
        _ => Err(broken(span, TypeKind::WrongCount)),
    }
}

/// A function of one operand.
#[cycle(expression)]
fn typed_one(
    alloc: Global,
    attributes: &[Attribute],
    dimensions: &[Dimension],
    span: Span,
    name: &[u8],
    form: OneForm,
    operands: &[Tree],
) -> Result<Operand, TypeFault>
    requires attributes { length attributes.now ≤ 64 }
    requires dimensions { length dimensions.now ≤ 6 }
    ensures { Answers result (typed_call attributes.now dimensions.now span name.now None (Some (Form.One form)) (to_terms operands.now)) }
{
    match operands {
        [a] => typed_operand(alloc, attributes, dimensions, span, form, a),
        _ => Err(broken(span, TypeKind::WrongCount)),
    }
}
