//! `redimension`.
ghost use Rattle.std.specs.Prelude.{◌≡◌, ◌≤◌, length, IfOk};
ghost use Rattle.cell_values.specs.Schemas.{dimension_names};
ghost use Rattle.check_rules.specs.Checked.{Answers};
ghost use Rattle.check_groups.specs.Aggregates.{aggregates_of};
ghost use Rattle.check_sources.specs.Redimension.{redimension_of, redimension_parts, with_aggregates, with_target};

use crate::redimension::target::{attributes_fault, may_count};
use crate::sources::meant;
use afl_trees::{Node, Tree};
use cell_values::{Dimension, List, Memory, Name, Schema, Span};
use check_groups::{aggregates_of, first_but_aggregates, push_dimension_names};
use check_rules::{TypeFault, broken, wrong_type};
use logical_plan::Aggregate;
use schema_grammar::TypeKind;
use std::alloc::Global;

/// The parts of a `redimension` besides its source.
#[derive(Drop)]
pub struct Redimensioned {
    /// The schema of the result.
    pub schema: Schema,
    /// None, or one for each attribute of the result.
    pub aggregates: List<Aggregate>,
}

fn dimension_names(alloc: Global, dimensions: &[Dimension]) -> Result<List<Name>, Memory>
    ensures { IfOk result (λ names. names ≡ dimension_names dimensions.now) }
{
    let mut names = List::with_capacity(alloc, dimensions.len())?;
    push_dimension_names(&mut names, dimensions)?;
    Ok(names)
}

/// The aggregates that arguments are, for a result with these dimensions.
fn aggregates_into(
    alloc: Global,
    span: Span,
    source: &Schema,
    dimensions: &[Dimension],
    arguments: &[Tree],
) -> Result<List<Aggregate>, TypeFault>
    requires { length source.now.attributes ≤ 64 }
    ensures { Answers result (aggregates_of span source.now.attributes (dimension_names dimensions.now) arguments.now) }
{
    let names = dimension_names(alloc, dimensions)?;
    let attributes = source.attributes.as_slice();
    aggregates_of(alloc, span, attributes, names.as_slice(), arguments)
}

/// A target, written at a place, with its aggregates.
fn with_aggregates(
    at: Span,
    source: &Schema,
    target: Schema,
    aggregates: List<Aggregate>,
) -> Result<Redimensioned, TypeFault>
    ensures { Answers result (with_aggregates at source.now target aggregates) }
{
    match attributes_fault(source, &target, aggregates.as_slice()) {
        Some(kind) => Err(broken(at, kind)),
        None => Ok(Redimensioned {
            schema: target,
            aggregates,
        }),
    }
}

/// A target, written at a place, and the arguments that are its aggregates.
#[tactic(auto, using(check_rules::proofs::Steps::ok_then, check_rules::proofs::Steps::err_then))]
fn with_target(
    alloc: Global,
    span: Span,
    at: Span,
    source: &Schema,
    arguments: &[Tree],
    target: Schema,
) -> Result<Redimensioned, TypeFault>
    requires { length source.now.attributes ≤ 64 }
    ensures { Answers result (with_target span at source.now arguments.now target) }
{
    if !may_count(source, &target, arguments) {
        return Err(broken(at, TypeKind::UnknownName));
    }
    let dimensions = target.dimensions.as_slice();
    let aggregates = aggregates_into(alloc, span, source, dimensions, arguments)?;
    with_aggregates(at, source, target, aggregates)
}

/// A schema, and aggregates.
#[tactic(auto, using(check_rules::proofs::Steps::ok_then, check_rules::proofs::Steps::err_then))]
fn redimension_of(
    alloc: Global,
    text: &[u8],
    span: Span,
    source: &Schema,
    shape: &Tree,
    arguments: &[Tree],
) -> Result<Redimensioned, TypeFault>
    requires { length source.now.attributes ≤ 64 }
    ensures { Answers result (redimension_of span source.now shape.now arguments.now) }
{
    let Node::Schema(written) = &shape.node else {
        return Err(wrong_type(shape));
    };
    if let Some(other) = first_but_aggregates(arguments) {
        return Err(broken(other, TypeKind::WrongType));
    }
    let target = meant(alloc, text, written)?;
    with_target(alloc, span, shape.span, source, arguments, target)
}

/// The parts of `redimension` over a source of this schema, with what stands behind the source in `text`.
///
/// `span` is that of the whole call.
pub fn redimension_parts(
    alloc: Global,
    text: &[u8],
    span: Span,
    source: &Schema,
    arguments: &[Tree],
) -> Result<Redimensioned, TypeFault>
    requires { length source.now.attributes ≤ 64 }
    ensures { Answers result (redimension_parts span source.now arguments.now) }
{
    match arguments {
        [shape, aggregates @ ..] => redimension_of(alloc, text, span, source, shape, aggregates),
        [] => Err(broken(span, TypeKind::WrongCount)),
    }
}
