//! Where the numbers and values of a target come from.
ghost use Rattle.std.specs.Prelude.{◌≡◌, ◌<◌, ◌&&◌, length, map, IfSome, IfOk};
ghost use Rattle.std.specs.Str.{bytes_eq};
ghost use Rattle.cell_values.specs.declared.schema.Kind.TheVariants.{Int64};
ghost use Rattle.expr_nulls.specs.Typing.{same_kind};
ghost use Rattle.logical_plan.specs.Redimension.{place_where, origin_of, value_origin};
ghost use Rattle.redimension_exec.specs.Inner.Places.{origin};

use cell_values::{Attribute, Dimension, Kind, List, Memory, Name, Schema};

/// Where a number of a target's coordinate, or a value of its cell, comes from.
#[derive(Clone, Copy)]
pub(crate) enum Place {
    /// The source's dimension in this place, from 0.
    OfDimension(usize),
    /// Its attribute in this place, from 0.
    OfAttribute(usize),
    /// A synthetic dimension, which counts from this number.
    Counted(i64),
}

fn dimension_named(dimensions: &[Dimension], name: &Name) -> Option<usize>
    ensures value { result ≡ place_where (λ d. bytes_eq d.name name.now) dimensions.now }
    ensures within { IfSome result (λ place. place < length dimensions.now) }
{
    match dimensions {
        [] => None,
        [dimension, dimensions @ ..] => {
            if dimension.name == *name {
                return Some(0);
            }
            match dimension_named(dimensions, name) {
                Some(place) => Some(place + 1),
                None => None,
            }
        }
    }
}

fn attribute_named(attributes: &[Attribute], name: &Name) -> Option<usize>
    ensures value { result ≡ place_where (λ a. bytes_eq a.name name.now) attributes.now }
    ensures within { IfSome result (λ place. place < length attributes.now) }
{
    match attributes {
        [] => None,
        [attribute, attributes @ ..] => {
            if attribute.name == *name {
                return Some(0);
            }
            match attribute_named(attributes, name) {
                Some(place) => Some(place + 1),
                None => None,
            }
        }
    }
}

fn is_number_named(attribute: &Attribute, name: &Name) -> bool
    ensures { result ≡ (bytes_eq attribute.now.name name.now && same_kind attribute.now.kind Int64) }
{
    attribute.name == *name && attribute.kind == Kind::Int64
}

fn number_named(attributes: &[Attribute], name: &Name) -> Option<usize>
    ensures value { result ≡ place_where (λ a. bytes_eq a.name name.now && same_kind a.kind Int64) attributes.now }
    ensures within { IfSome result (λ place. place < length attributes.now) }
{
    match attributes {
        [] => None,
        [attribute, attributes @ ..] => {
            if is_number_named(attribute, name) {
                return Some(0);
            }
            match number_named(attributes, name) {
                Some(place) => Some(place + 1),
                None => None,
            }
        }
    }
}

fn place_of_dimension(source: &Schema, dimension: &Dimension) -> Place
    ensures { origin result ≡ origin_of source.now dimension.now }
{
    match dimension_named(source.dimensions.as_slice(), &dimension.name) {
        Some(place) => Place::OfDimension(place),
        None => match number_named(source.attributes.as_slice(), &dimension.name) {
            Some(place) => Place::OfAttribute(place),
            None => Place::Counted(dimension.lo),
        },
    }
}

fn place_of_attribute(source: &Schema, attribute: &Attribute) -> Place
    ensures { origin result ≡ value_origin source.now attribute.now }
{
    match attribute_named(source.attributes.as_slice(), &attribute.name) {
        Some(place) => Place::OfAttribute(place),
        None => match dimension_named(source.dimensions.as_slice(), &attribute.name) {
            Some(place) => Place::OfDimension(place),
            None => Place::Counted(0),
        },
    }
}

/// Where the numbers of a target's coordinates come from.
pub(crate) fn places_of_dimensions(
    source: &Schema,
    dimensions: &[Dimension],
) -> Result<List<Place>, Memory>
    ensures { IfOk result (λ places. map origin places ≡ map (origin_of source.now) dimensions.now) }
{
    let mut places = source.dimensions.another();
    for dimension in dimensions {
        places.push(place_of_dimension(source, dimension))?;
    }
    Ok(places)
}

/// Where the values of a target's attributes come from.
pub(crate) fn places_of_attributes(
    source: &Schema,
    attributes: &[Attribute],
) -> Result<List<Place>, Memory>
    ensures { IfOk result (λ places. map origin places ≡ map (value_origin source.now) attributes.now) }
{
    let mut places = source.dimensions.another();
    for attribute in attributes {
        places.push(place_of_attribute(source, attribute))?;
    }
    Ok(places)
}
