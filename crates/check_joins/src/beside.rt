//! Dimensions and attributes side by side.
ghost use Rattle.std.specs.Prelude.{◌≡◌, ◌≤◌, ◌++◌, ◌∷◌, length, IfOk, OnOk};
ghost use Rattle.cell_values.specs.Schemas.{attribute_names, dimension_names};
ghost use Rattle.array_rows.specs.Boxes.{by_pairs};
ghost use Rattle.logical_plan.specs.PlanSchema.{renamed_attribute, renamed_dimension, with_free_names};
ghost use Rattle.check_rules.specs.Checked.{Answers};
ghost use Rattle.check_joins.specs.JoinSchemas.{beside};

use crate::free::free_names;
use cell_values::{Attribute, Dimension, List, Memory, Name, Schema, Span};
use check_groups::{push_attribute_names, push_dimension_names};
use check_rules::TypeFault;
use std::alloc::Global;

fn names_of(
    alloc: Global,
    dimensions: &[Dimension],
    attributes: &[Attribute],
) -> Result<List<Name>, Memory>
    ensures { IfOk result (λ names. names ≡ dimension_names dimensions.now ++ attribute_names attributes.now) }
{
    let mut names = List::new(alloc);
    push_dimension_names(&mut names, dimensions)?;
    push_attribute_names(&mut names, attributes)?;
    Ok(names)
}

fn renamed_dimension(dimension: &Dimension, name: &Name) -> Result<Dimension, Memory>
    ensures { IfOk result (λ renamed. renamed ≡ renamed_dimension dimension.now name.now) }
{
    Ok(Dimension {
        name: name.copy()?,
        lo: dimension.lo,
        hi: dimension.hi,
        chunk: dimension.chunk,
        overlap: dimension.overlap,
    })
}

fn renamed_attribute(attribute: &Attribute, name: &Name) -> Result<Attribute, Memory>
    ensures { IfOk result (λ renamed. renamed ≡ renamed_attribute attribute.now name.now) }
{
    Ok(Attribute {
        name: name.copy()?,
        kind: attribute.kind,
        nullable: attribute.nullable,
    })
}

/// Adds each dimension under its new name.
fn push_dimensions(
    renamed: &mut List<Dimension>,
    dimensions: &[Dimension],
    names: &[Name],
) -> Result<(), Memory>
    ensures { OnOk result (renamed.new ≡ renamed.old ++ by_pairs renamed_dimension dimensions.now names.now) }
{
    match dimensions {
        [] => Ok(()),
        [dimension, dimensions @ ..] => match names {
            [] => Ok(()),
            [name, names @ ..] => {
                renamed.push(renamed_dimension(dimension, name)?)?;
                push_dimensions(renamed, dimensions, names)
            }
        },
    }
}

/// Adds each attribute under its new name.
fn push_attributes(
    renamed: &mut List<Attribute>,
    attributes: &[Attribute],
    names: &[Name],
) -> Result<(), Memory>
    ensures { OnOk result (renamed.new ≡ renamed.old ++ by_pairs renamed_attribute attributes.now names.now) }
{
    match attributes {
        [] => Ok(()),
        [attribute, attributes @ ..] => match names {
            [] => Ok(()),
            [name, names @ ..] => {
                renamed.push(renamed_attribute(attribute, name)?)?;
                push_attributes(renamed, attributes, names)
            }
        },
    }
}

/// The dimensions and attributes under new names, those of the dimensions first.
fn with_names(
    alloc: Global,
    dimensions: &[Dimension],
    attributes: &[Attribute],
    names: &[Name],
) -> Result<Schema, Memory>
    requires { length dimensions.now ≤ length names.now }
    ensures { IfOk result (λ schema. schema ≡ with_free_names dimensions.now attributes.now names.now) }
{
    let (of_dimensions, of_attributes) = names.split_at(dimensions.len());
    let mut renamed_dimensions = List::with_capacity(alloc, dimensions.len())?;
    push_dimensions(&mut renamed_dimensions, dimensions, of_dimensions)?;
    let mut renamed_attributes = List::with_capacity(alloc, attributes.len())?;
    push_attributes(&mut renamed_attributes, attributes, of_attributes)?;
    Ok(Schema {
        attributes: renamed_attributes,
        dimensions: renamed_dimensions,
    })
}

/// The schema of these dimensions and attributes, each name that is already given with a number behind it.
#[tactic(auto, using(check_rules::proofs::Steps::ok_then, check_rules::proofs::Steps::err_then, crate::proofs::FreeNames::enough_names))]
pub(crate) fn beside(
    alloc: Global,
    span: Span,
    dimensions: &[Dimension],
    attributes: &[Attribute],
) -> Result<Schema, TypeFault>
    ensures { Answers result (beside span dimensions.now attributes.now) }
{
    let wanted = names_of(alloc, dimensions, attributes)?;
    let names = free_names(alloc, span, wanted.as_slice())?;
    Ok(with_names(alloc, dimensions, attributes, names.as_slice())?)
}

/// The attributes of both, the left ones first.
pub(crate) fn attributes_of_both(
    left: &List<Attribute>,
    right: &List<Attribute>,
) -> Result<List<Attribute>, Memory>
    ensures { IfOk result (λ both. both ≡ left.now ++ right.now) }
{
    let mut both = left.copy()?;
    both.append(right.copy()?)?;
    Ok(both)
}
