//! Names that a rule makes or that stand among the arguments, beside those of a schema.
ghost use Rattle.std.specs.Prelude.{◌≡◌};
ghost use Rattle.std.specs.List.{list_any};
ghost use Rattle.std.specs.Str.{bytes_eq};
ghost use Rattle.cell_values.specs.Schemas.{attribute_names, dimension_names, is_among};

use cell_values::{Attribute, Dimension};

fn any_dimension(dimensions: &[Dimension], name: &[u8]) -> bool
    ensures { result ≡ list_any (λ dimension. bytes_eq name.now dimension.name) dimensions.now }
{
    dimensions
        .iter()
        .any(|dimension| name == dimension.name.as_slice())
}

/// Whether a dimension has this name.
pub(crate) fn is_dimension_name(dimensions: &[Dimension], name: &[u8]) -> bool
    ensures { result ≡ is_among name.now (dimension_names dimensions.now) }
{
    any_dimension(dimensions, name)
}

fn any_attribute(attributes: &[Attribute], name: &[u8]) -> bool
    ensures { result ≡ list_any (λ attribute. bytes_eq name.now attribute.name) attributes.now }
{
    attributes
        .iter()
        .any(|attribute| name == attribute.name.as_slice())
}

/// Whether an attribute has this name.
pub(crate) fn is_attribute_name(attributes: &[Attribute], name: &[u8]) -> bool
    ensures { result ≡ is_among name.now (attribute_names attributes.now) }
{
    any_attribute(attributes, name)
}
