//! `build`: an array of an expression's values, or of a literal's rows.
ghost use Rattle.std.specs.Prelude.{◌≡◌, ◌≤◌, ◌^◌, ◌-◌, min, length, [], IfOk};
ghost use Rattle.std.specs.List.{list_all};
ghost use Rattle.cell_values.specs.Schemas.{IsValid};
ghost use Rattle.cell_values.specs.declared.name.Span.{Span};
ghost use Rattle.afl_trees.specs.Term.{to_terms, no_terms, and_term};
ghost use Rattle.logical_plan.specs.Typing.{is_bounded, places_along, places_in};
ghost use Rattle.check_rules.specs.Checked.{Answers, then};
ghost use Rattle.check_exprs.specs.Expressions.{typed};
ghost use Rattle.check_sources.specs.Build.{meant, built_of, built_within, built_from, listed_from, built_by, build_call};

use afl_trees::{Node, Tree};
use cell_values::{Dimension, Kind, List, Schema, Span};
use check_exprs::{Operand, fits, typed};
use check_rules::{TypeFault, broken, is_expression, literal_rows, wrong_type};
use expr_nulls::let_go_expr;
use logical_plan::Plan;
use schema_grammar::{SchemaText, TypeKind, meaning};
use std::alloc::Global;

/// The most cells that are built.
const MOST_CELLS: u64 = 16777216;

/// The high bound that is written `*`.
const UNBOUNDED: i64 = 4611686018427387903;

/// The schema that is written in `text`, which is then valid, or the first rule of schemas that it breaks.
#[tactic(auto, using(crate::proofs::Meanings::is_meant, crate::proofs::Meanings::is_broken))]
pub fn meant(alloc: Global, text: &[u8], written: &SchemaText) -> Result<Schema, TypeFault>
    ensures meaning { Answers result (meant written.now) }
    ensures valid { IfOk result IsValid }
{
    match meaning(alloc, text, written) {
        Ok(schema) => Ok(schema),
        Err(fault) => Err(TypeFault::from(fault)),
    }
}

/// Whether the high bound is another than `*`.
fn is_bounded(dimension: &Dimension) -> bool
    ensures { result ≡ is_bounded dimension.now }
{
    dimension.hi != UNBOUNDED
}

fn are_bounded(dimensions: &[Dimension]) -> bool
    ensures { result ≡ list_all is_bounded dimensions.now }
{
    dimensions.iter().all(is_bounded)
}

/// How many places there are along a dimension whose bounds are in order, or 2^64 - 1 where they are more.
fn places_along(dimension: &Dimension) -> u64
    ensures { result ≡ min (places_along dimension.now) (2 ^ 64 - 1) }
{
    dimension.hi.abs_diff(dimension.lo).saturating_add(1)
}

/// How many cells there are, or 2^64 - 1 where they are more.
#[tactic(auto, using(crate::proofs::Counts::counts_on))]
fn places_in(dimensions: &[Dimension]) -> u64
    ensures { result ≡ min (places_in dimensions.now) (2 ^ 64 - 1) }
{
    let mut count: u64 = 1;
    for dimension in dimensions {
        count = count.saturating_mul(places_along(dimension));
    }
    count
}

/// A value at each coordinate, where it is of the attribute's kind.
fn built_of(schema: Schema, attribute: Kind, value: Operand) -> Result<Plan, TypeFault>
    requires { IsValid schema }
    ensures { Answers result (built_of schema attribute value) }
{
    if fits(attribute, value.kind) {
        Ok(Plan::build(schema, value.expr))
    } else {
        let span = value.span;
        let_go_expr(value.expr);
        Err(broken(span, TypeKind::WrongType))
    }
}

/// An expression over dimensions alone.
fn typed_over(
    alloc: Global,
    dimensions: &List<Dimension>,
    value: &Tree,
) -> Result<Operand, TypeFault>
    requires { length dimensions.now ≤ 6 }
    ensures { Answers result (typed [] dimensions.now value.now) }
{
    typed(alloc, &[], dimensions.as_slice(), value)
}

/// The value of an expression at each coordinate of a schema.
#[tactic(auto, using(check_rules::proofs::Steps::ok_then, check_rules::proofs::Steps::err_then, crate::proofs::Valid::few_dimensions))]
fn built_typed(alloc: Global, schema: Schema, kind: Kind, value: &Tree) -> Result<Plan, TypeFault>
    requires { IsValid schema }
    ensures { Answers result (then (typed [] schema.dimensions value.now) (built_of schema kind)) }
{
    let value = typed_over(alloc, &schema.dimensions, value)?;
    built_of(schema, kind, value)
}

/// The same over at most 16,777,216 coordinates.
fn built_within(
    alloc: Global,
    schema: Schema,
    kind: Kind,
    span: Span,
    value: &Tree,
) -> Result<Plan, TypeFault>
    requires { IsValid schema }
    ensures { Answers result (built_within span value.now schema kind) }
{
    if places_in(schema.dimensions.as_slice()) > MOST_CELLS {
        return Err(broken(span, TypeKind::TooManyCells));
    }
    built_typed(alloc, schema, kind, value)
}

/// `build` of a schema, written at a place, and an expression.
#[tactic(auto, using(check_rules::proofs::Steps::ok_then, check_rules::proofs::Steps::err_then))]
fn built_from(
    alloc: Global,
    text: &[u8],
    written: &SchemaText,
    span: Span,
    value: &Tree,
) -> Result<Plan, TypeFault>
    ensures { Answers result (built_from written.now span value.now) }
{
    let schema = meant(alloc, text, written)?;
    if !are_bounded(schema.dimensions.as_slice()) {
        return Err(broken(span, TypeKind::NotBounded));
    }
    let kind = match schema.attributes.as_slice() {
        [attribute] => attribute.kind,
        _ => return Err(broken(span, TypeKind::WrongCount)),
    };
    built_within(alloc, schema, kind, span, value)
}

/// `build` of a schema, written at a place, and a literal at another.
#[tactic(auto, using(check_rules::proofs::Steps::ok_then, check_rules::proofs::Steps::err_then, crate::proofs::Valid::high_bound))]
fn listed_from(
    alloc: Global,
    text: &[u8],
    written: &SchemaText,
    span: Span,
    at: Span,
    spelled: &[u8],
) -> Result<Plan, TypeFault>
    ensures { Answers result (listed_from written.now span at spelled.now) }
{
    let schema = meant(alloc, text, written)?;
    let rows = match schema.dimensions.as_slice() {
        [dimension] => literal_rows(alloc, schema.attributes.as_slice(), dimension, spelled)?,
        _ => return Err(broken(span, TypeKind::WrongCount)),
    };
    match rows {
        Some(rows) => Ok(Plan::literal(schema, rows)),
        None => Err(broken(at, TypeKind::BadLiteral)),
    }
}

/// What stands behind an expression says what it is.
fn built_by(
    alloc: Global,
    text: &[u8],
    written: &SchemaText,
    span: Span,
    value: &Tree,
    flag: &Tree,
) -> Result<Plan, TypeFault>
    ensures { Answers result (built_by written.now span value.now flag.now) }
{
    match (&flag.node, &value.node) {
        (Node::Truth(false), _) => built_from(alloc, text, written, span, value),
        (Node::Truth(true), Node::Text(spelled)) => {
            listed_from(alloc, text, written, span, value.span, spelled.as_slice())
        }
        _ => Err(wrong_type(flag)),
    }
}

/// `build` of a schema and an expression.
fn build_two(alloc: Global, text: &[u8], shape: &Tree, value: &Tree) -> Result<Plan, TypeFault>
    ensures { (s : Span) → Answers result (build_call s (and_term shape.now (and_term value.now no_terms))) }
{
    let written = match &shape.node {
        Node::Schema(written) => written,
        _ => return Err(wrong_type(shape)),
    };
    if !is_expression(value) {
        return Err(wrong_type(value));
    }
    built_from(alloc, text, written, shape.span, value)
}

/// `build` of a schema, an expression or a text, and a truth.
fn build_three(
    alloc: Global,
    text: &[u8],
    shape: &Tree,
    value: &Tree,
    flag: &Tree,
) -> Result<Plan, TypeFault>
    ensures { (s : Span) → Answers result (build_call s (and_term shape.now (and_term value.now (and_term flag.now no_terms)))) }
{
    let written = match &shape.node {
        Node::Schema(written) => written,
        _ => return Err(wrong_type(shape)),
    };
    if !is_expression(value) {
        return Err(wrong_type(value));
    }
    built_by(alloc, text, written, shape.span, value, flag)
}

/// `build`.
#[tactic(auto, using(crate::proofs::Arguments::few_for_build, crate::proofs::Arguments::many_for_build))]
pub fn build_call(
    alloc: Global,
    text: &[u8],
    span: Span,
    arguments: &[Tree],
) -> Result<Plan, TypeFault>
    ensures { Answers result (build_call span (to_terms arguments.now)) }
{
    match arguments {
        [shape, value] => build_two(alloc, text, shape, value),
        [shape, value, flag] => build_three(alloc, text, shape, value, flag),
        _ => Err(broken(span, TypeKind::WrongCount)),
    }
}
