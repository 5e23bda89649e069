//! The names of dimensions and attributes as a list.
ghost use Rattle.std.specs.Prelude.{◌≡◌, ◌++◌, OnOk};
ghost use Rattle.cell_values.specs.Schemas.{attribute_names, dimension_names};

use cell_values::{Attribute, Dimension, List, Memory, Name};

/// Adds the names of dimensions.
pub fn push_dimension_names(names: &mut List<Name>, dimensions: &[Dimension]) -> Result<(), Memory>
    ensures { OnOk result (names.new ≡ names.old ++ dimension_names dimensions.now) }
{
    for dimension in dimensions {
        names.push(dimension.name.copy()?)?;
    }
    Ok(())
}

/// Adds the names of attributes.
pub fn push_attribute_names(names: &mut List<Name>, attributes: &[Attribute]) -> Result<(), Memory>
    ensures { OnOk result (names.new ≡ names.old ++ attribute_names attributes.now) }
{
    for attribute in attributes {
        names.push(attribute.name.copy()?)?;
    }
    Ok(())
}
