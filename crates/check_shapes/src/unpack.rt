//! `unpack`.
ghost use Rattle.std.specs.Prelude.{◌≡◌, ◌++◌, map, IfOk, OnOk};
ghost use Rattle.logical_plan.specs.ShapeSchemas.{numbers_of, unpack_schema};
ghost use Rattle.check_rules.specs.Checked.{Answers};
ghost use Rattle.check_shapes.specs.Unpack.{unpack_named, unpack_parts, unpack_under};

use crate::names::{is_attribute_name, is_dimension_name};
use crate::numbered::numbered_schema;
use afl_trees::{Node, Tree};
use cell_values::{Attribute, Dimension, Kind, List, Memory, Name, Schema, Span};
use check_rules::{TypeFault, broken, wrong_type};
use schema_grammar::TypeKind;
use std::alloc::Global;

/// A dimension as an attribute.
fn numbers_of(dimension: &Dimension) -> Result<Attribute, Memory>
    ensures { IfOk result (λ attribute. attribute ≡ numbers_of dimension.now) }
{
    Ok(Attribute {
        name: dimension.name.copy()?,
        kind: Kind::Int64,
        nullable: false,
    })
}

/// Adds each dimension as an attribute.
fn push_numbers(attributes: &mut List<Attribute>, dimensions: &[Dimension]) -> Result<(), Memory>
    ensures { OnOk result (attributes.new ≡ attributes.old ++ map numbers_of dimensions.now) }
{
    match dimensions {
        [] => Ok(()),
        [dimension, dimensions @ ..] => {
            attributes.push(numbers_of(dimension)?)?;
            push_numbers(attributes, dimensions)
        }
    }
}

/// The schema of the cells of a source of this schema, numbered along a dimension of this name.
fn unpack_schema(alloc: Global, name: Name, source: &Schema) -> Result<Schema, Memory>
    ensures { IfOk result (λ schema. schema ≡ unpack_schema name source.now) }
{
    let mut attributes = List::with_capacity(alloc, source.dimensions.len())?;
    push_numbers(&mut attributes, source.dimensions.as_slice())?;
    attributes.append(source.attributes.copy()?)?;
    numbered_schema(alloc, attributes, name)
}

/// The schema under a name that stands at a place.
fn unpack_named(
    alloc: Global,
    source: &Schema,
    span: Span,
    name: &Name,
) -> Result<Schema, TypeFault>
    ensures { Answers result (unpack_named source.now span name.now) }
{
    let bytes = name.as_slice();
    if is_dimension_name(source.dimensions.as_slice(), bytes)
        || is_attribute_name(source.attributes.as_slice(), bytes)
    {
        return Err(broken(span, TypeKind::RepeatedName));
    }
    Ok(unpack_schema(alloc, name.copy()?, source)?)
}

/// The schema under the name that an argument is.
fn unpack_under(alloc: Global, source: &Schema, name: &Tree) -> Result<Schema, TypeFault>
    ensures { Answers result (unpack_under source.now name.now) }
{
    match &name.node {
        Node::Ref(known) => unpack_named(alloc, source, name.span, known),
        _ => Err(wrong_type(name)),
    }
}

/// The schema of `unpack` over a source of this schema, with the name behind the source.
///
/// `span` is that of the whole call.
#[tactic(auto, using(crate::proofs::Arguments::few_for_unpack, crate::proofs::Arguments::many_for_unpack))]
pub fn unpack_parts(
    alloc: Global,
    span: Span,
    source: &Schema,
    arguments: &[Tree],
) -> Result<Schema, TypeFault>
    ensures { Answers result (unpack_parts span source.now arguments.now) }
{
    match arguments {
        [name] => unpack_under(alloc, source, name),
        _ => Err(broken(span, TypeKind::WrongCount)),
    }
}
