//! Aggregates over a source whose dimensions stay.
ghost use Rattle.std.specs.Prelude.{◌≡◌, ◌≤◌, length, IfOk};
ghost use Rattle.cell_values.specs.Schemas.{dimension_names};
ghost use Rattle.check_rules.specs.Checked.{Answers};
ghost use Rattle.check_groups.specs.Aggregates.{aggregates_of};

use crate::aggregates::aggregates_of;
use crate::names::push_dimension_names;
use afl_trees::Tree;
use cell_values::{Dimension, List, Memory, Name, Schema, Span};
use check_rules::TypeFault;
use logical_plan::Aggregate;
use std::alloc::Global;

fn dimension_names(alloc: Global, dimensions: &[Dimension]) -> Result<List<Name>, Memory>
    ensures { IfOk result (λ names. names ≡ dimension_names dimensions.now) }
{
    let mut names = List::with_capacity(alloc, dimensions.len())?;
    push_dimension_names(&mut names, dimensions)?;
    Ok(names)
}

/// The aggregates that arguments are, for a result whose dimensions have the names of the source's.
pub(crate) fn aggregates_over(
    alloc: Global,
    span: Span,
    source: &Schema,
    arguments: &[Tree],
) -> Result<List<Aggregate>, TypeFault>
    requires { length source.now.attributes ≤ 64 }
    ensures { Answers result (aggregates_of span source.now.attributes (dimension_names source.now.dimensions) arguments.now) }
{
    let names = dimension_names(alloc, source.dimensions.as_slice())?;
    let attributes = source.attributes.as_slice();
    aggregates_of(alloc, span, attributes, names.as_slice(), arguments)
}
