//! The names that a change has.
ghost use Rattle.std.specs.List.{AllByRecursion};
ghost use Rattle.expr_nulls.specs.Naming.{IsName};
ghost use Rattle.expr_nulls.specs.Schemas.{attribute_names, dimension_names};
ghost use Rattle.plan_changes.specs.Stored.{HasItsNames, HasNames};

use crate::Change;
use expr_nulls::{Attribute, Dimension, Name, Schema};

/// A name is one.
fn is_a_name(name: &Name)
    ensures { IsName name.now }
{
    let _bytes = name.as_slice();
}

fn attributes_have_names(attributes: &[Attribute])
    ensures { AllByRecursion IsName (attribute_names attributes.now) }
{
    for attribute in attributes {
        is_a_name(&attribute.name);
    }
}

fn dimensions_have_names(dimensions: &[Dimension])
    ensures { AllByRecursion IsName (dimension_names dimensions.now) }
{
    for dimension in dimensions {
        is_a_name(&dimension.name);
    }
}

/// Each attribute and each dimension has a name.
fn has_names(schema: &Schema)
    ensures { HasNames schema.now }
{
    attributes_have_names(schema.attributes.as_slice());
    dimensions_have_names(schema.dimensions.as_slice());
}

/// The array of a change has a name, and the schema of one that it may make has names.
pub fn has_its_names(change: &Change)
    ensures { HasItsNames change.now }
{
    match change {
        Change::Create { name, schema } => {
            is_a_name(name);
            has_names(schema);
        }
        Change::Store { name, schema, .. } => {
            is_a_name(name);
            has_names(schema);
        }
        Change::Insert { name, .. } => is_a_name(name),
        Change::Remove { name } => is_a_name(name),
        Change::RemoveVersions { name, .. } => is_a_name(name),
    }
}
