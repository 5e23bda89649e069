//! `cumulate`.
ghost use Rattle.std.specs.Prelude.{◌≡◌, ◌≤◌, length};
ghost use Rattle.check_rules.specs.Checked.{Answers};
ghost use Rattle.check_groups.specs.Cumulations.{along, along_line, cumulate_of, cumulate_parts, first_but_last_name};

use crate::aggregates::leading_aggregates;
use crate::groups::source::aggregates_over;
use crate::names::dimension_one;
use afl_trees::Tree;
use cell_values::{Dimension, List, Schema, Span};
use check_rules::{TypeFault, broken, first_but_names};
use logical_plan::Aggregate;
use schema_grammar::TypeKind;
use std::alloc::Global;

/// The parts of a `cumulate` besides its source.
#[derive(Drop)]
pub struct Cumulation {
    pub aggregates: List<Aggregate>,
    /// The place of the dimension along which cells are aggregated, from 0.
    pub dimension: u32,
}

/// The place of the first argument that is not the last one or no name.
fn first_but_last_name(arguments: &[Tree]) -> Option<Span>
    ensures { result ≡ first_but_last_name arguments.now }
{
    match arguments {
        [first, _, ..] => Some(first.span),
        _ => first_but_names(arguments),
    }
}

/// The place of the dimension that is named, or of the first one where none is.
fn line_dimension(dimensions: &[Dimension], names: &[Tree]) -> Result<u32, TypeFault>
    requires { length dimensions.now ≤ 6 }
    ensures { Answers result (along dimensions.now names.now) }
{
    match names {
        [] => Ok(0),
        [name, ..] => dimension_one(dimensions, &[], name),
    }
}

/// Aggregates along a dimension.
#[tactic(auto, using(check_rules::proofs::Steps::ok_then, check_rules::proofs::Steps::err_then))]
fn along_line(
    alloc: Global,
    span: Span,
    source: &Schema,
    arguments: &[Tree],
    dimension: u32,
) -> Result<Cumulation, TypeFault>
    requires { length source.now.attributes ≤ 64 }
    ensures { Answers result (along_line span source.now arguments.now dimension) }
{
    let aggregates = aggregates_over(alloc, span, source, arguments)?;
    Ok(Cumulation {
        aggregates,
        dimension,
    })
}

/// Aggregates, and a dimension.
#[tactic(auto, using(check_rules::proofs::Steps::ok_then, check_rules::proofs::Steps::err_then))]
fn cumulate_of(
    alloc: Global,
    span: Span,
    source: &Schema,
    aggregates: &[Tree],
    names: &[Tree],
) -> Result<Cumulation, TypeFault>
    requires attributes { length source.now.attributes ≤ 64 }
    requires dimensions { length source.now.dimensions ≤ 6 }
    ensures { Answers result (cumulate_of span source.now aggregates.now names.now) }
{
    if let Some(other) = first_but_last_name(names) {
        return Err(broken(other, TypeKind::WrongType));
    }
    if aggregates.is_empty() {
        return Err(broken(span, TypeKind::WrongCount));
    }
    let dimension = line_dimension(source.dimensions.as_slice(), names)?;
    along_line(alloc, span, source, aggregates, dimension)
}

/// The parts of `cumulate` over a source of this schema, with what stands behind the source.
///
/// `span` is that of the whole call.
pub fn cumulate_parts(
    alloc: Global,
    span: Span,
    source: &Schema,
    arguments: &[Tree],
) -> Result<Cumulation, TypeFault>
    requires attributes { length source.now.attributes ≤ 64 }
    requires dimensions { length source.now.dimensions ≤ 6 }
    ensures { Answers result (cumulate_parts span source.now arguments.now) }
{
    let (aggregates, names) = arguments.split_at(leading_aggregates(arguments));
    cumulate_of(alloc, span, source, aggregates, names)
}
