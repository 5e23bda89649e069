//! `apply`.
ghost use Rattle.std.specs.Prelude.{◌≡◌, ◌≤◌, length, []};
ghost use Rattle.logical_plan.specs.PlanSchema.{schema_of};
ghost use Rattle.logical_plan.specs.Query.{applied};
ghost use Rattle.check_rules.specs.Checked.{Answers, then};
ghost use Rattle.check_exprs.specs.Expressions.{typed};
ghost use Rattle.check_rules.specs.InTurn.{pairs_in_turn};
ghost use Rattle.check_rules.specs.NewSchema.{of_new_schema};
ghost use Rattle.check_cellwise.specs.Apply.{applied_named, applied_one, apply_call, is_applied_name};
ghost use Rattle.check_cellwise.specs.Apply.{is_attribute_name, is_dimension_name, is_given, named_value};

use crate::cells::source::typed_over;
use afl_trees::{Node, Tree};
use cell_values::{Attribute, Dimension, List, Memory, Name, Schema, Span};
use check_exprs::Operand;
use check_rules::{
    TypeFault, broken, first_but_values, of_new_schema, same_name, shape_of, wrong_type,
};
use expr_nulls::let_go_expr;
use logical_plan::{Applied, Plan, let_go};
use schema_grammar::TypeKind;
use std::alloc::Global;

fn is_attribute_name(attributes: &[Attribute], name: &[u8]) -> bool
    ensures { result ≡ is_attribute_name attributes.now name.now }
{
    attributes
        .iter()
        .any(|attribute| same_name(&attribute.name, name))
}

fn is_dimension_name(dimensions: &[Dimension], name: &[u8]) -> bool
    ensures { result ≡ is_dimension_name dimensions.now name.now }
{
    dimensions
        .iter()
        .any(|dimension| same_name(&dimension.name, name))
}

fn is_applied_name(done: &[Applied], name: &[u8]) -> bool
    ensures { result ≡ is_applied_name done.now name.now }
{
    done.iter().any(|other| same_name(&other.name, name))
}

/// Whether a name is the source's, or one of those before.
fn is_given(source: &Schema, done: &[Applied], name: &[u8]) -> bool
    ensures { result ≡ is_given source.now done.now name.now }
{
    is_attribute_name(source.attributes.as_slice(), name)
        || is_dimension_name(source.dimensions.as_slice(), name)
        || is_applied_name(done, name)
}

/// An attribute with an operand's value, if that is of a kind.
fn named_value(name: &Name, value: Operand) -> Result<Applied, TypeFault>
    ensures { Answers result (named_value name.now value) }
{
    match value.kind {
        Some(kind) => match name.copy() {
            Ok(name) => Ok(Applied {
                name,
                kind,
                value: value.expr,
            }),
            Err(Memory) => {
                let_go_expr(value.expr);
                Err(TypeFault::Memory)
            }
        },
        None => {
            let span = value.span;
            let_go_expr(value.expr);
            Err(broken(span, TypeKind::WrongType))
        }
    }
}

/// An attribute with the value of an expression over a source.
#[tactic(auto, using(check_rules::proofs::Steps::ok_then, check_rules::proofs::Steps::err_then))]
fn with_value(
    alloc: Global,
    source: &Schema,
    name: &Name,
    value: &Tree,
) -> Result<Applied, TypeFault>
    requires attributes { length source.now.attributes ≤ 64 }
    requires dimensions { length source.now.dimensions ≤ 6 }
    ensures { Answers result (then (typed source.now.attributes source.now.dimensions value.now) (named_value name.now)) }
{
    let value = typed_over(alloc, source, value)?;
    named_value(name, value)
}

/// An attribute of a name, written at a place, with the value of an expression.
fn applied_named(
    alloc: Global,
    source: &Schema,
    done: &[Applied],
    span: Span,
    name: &Name,
    value: &Tree,
) -> Result<Applied, TypeFault>
    requires attributes { length source.now.attributes ≤ 64 }
    requires dimensions { length source.now.dimensions ≤ 6 }
    ensures { Answers result (applied_named source.now done.now span name.now value.now) }
{
    if is_given(source, done, name.as_slice()) {
        return Err(broken(span, TypeKind::RepeatedName));
    }
    with_value(alloc, source, name, value)
}

/// An attribute with the value of an expression.
fn applied_one(
    alloc: Global,
    source: &Schema,
    done: &[Applied],
    name: &Tree,
    value: &Tree,
) -> Result<Applied, TypeFault>
    requires attributes { length source.now.attributes ≤ 64 }
    requires dimensions { length source.now.dimensions ≤ 6 }
    ensures { Answers result (applied_one source.now done.now name.now value.now) }
{
    match &name.node {
        Node::Ref(known) => applied_named(alloc, source, done, name.span, known, value),
        _ => Err(wrong_type(name)),
    }
}

/// The attributes of names and expressions.
#[tactic(auto, using(check_rules::proofs::Steps::ok_then, check_rules::proofs::Steps::err_then))]
fn applied_all(
    alloc: Global,
    source: &Schema,
    arguments: &[Tree],
) -> Result<List<Applied>, TypeFault>
    requires attributes { length source.now.attributes ≤ 64 }
    requires dimensions { length source.now.dimensions ≤ 6 }
    ensures { Answers result (pairs_in_turn (applied_one source.now) [] arguments.now) }
{
    let mut done = List::new(alloc);
    let mut left = arguments;
    while let [name, value, rest @ ..] = left {
        let applied = applied_one(alloc, source, done.as_slice(), name, value)?;
        done.push(applied)?;
        left = rest;
    }
    Ok(done)
}

/// The attributes of names and expressions over a plan.
fn applied_over(
    alloc: Global,
    source: &Plan,
    arguments: &[Tree],
) -> Result<List<Applied>, TypeFault>
    requires attributes { length (schema_of source.now).attributes ≤ 64 }
    requires dimensions { length (schema_of source.now).dimensions ≤ 6 }
    ensures { Answers result (pairs_in_turn (applied_one (schema_of source.now)) [] arguments.now) }
{
    let schema = shape_of(alloc, source)?;
    applied_all(alloc, &schema, arguments)
}

/// A source with further values, where its schema is within the limits.
fn with_values(
    alloc: Global,
    span: Span,
    source: Plan,
    values: List<Applied>,
) -> Result<Plan, TypeFault>
    ensures { Answers result (of_new_schema span (applied source values)) }
{
    let plan = Plan::apply(alloc, source, values)?;
    of_new_schema(alloc, span, plan)
}

/// `apply` of a source, with what stands behind it.
#[tactic(auto, using(check_rules::proofs::Steps::ok_then, check_rules::proofs::Steps::err_then))]
pub fn apply_call(
    alloc: Global,
    span: Span,
    source: Plan,
    arguments: &[Tree],
) -> Result<Plan, TypeFault>
    requires attributes { length (schema_of source).attributes ≤ 64 }
    requires dimensions { length (schema_of source).dimensions ≤ 6 }
    ensures { Answers result (apply_call span source arguments.now) }
{
    if let Some(other) = first_but_values(arguments) {
        let_go(source);
        return Err(broken(other, TypeKind::WrongType));
    }
    match applied_over(alloc, &source, arguments) {
        Ok(values) => with_values(alloc, span, source, values),
        Err(fault) => {
            let_go(source);
            Err(fault)
        }
    }
}
