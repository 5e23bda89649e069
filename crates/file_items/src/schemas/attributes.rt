//! Reading attributes.
ghost use Rattle.std.specs.Prelude.{◌≡◌, []};
ghost use Rattle.std.specs.List.{list_any};
ghost use Rattle.std.specs.Str.{bytes_eq};
ghost use Rattle.file_items.specs.Items.{IsRead, repeat};
ghost use Rattle.cell_values.specs.Schemas.{attribute_names, is_among};
ghost use Rattle.file_items.specs.Table.{kind_at, flag_at, typed_at, attribute_at, next_attribute, with_last, attributes_at};

use crate::bytes::{Stop, u8_at};
use crate::schemas::names::{is_same, name};
use cell_values::{Attribute, Kind, List, Name};
use std::alloc::Global;

#[tactic(auto, unfolding(crate::specs::Table::kind_at))]
fn kind(bytes: &[u8]) -> Result<(Kind, &[u8]), Stop>
    ensures { IsRead (λ x. (x.0, x.1.now)) result (kind_at bytes.now) }
{
    match bytes {
        [] => Err(Stop::Left(0)),
        [1, rest @ ..] => Ok((Kind::Int64, rest)),
        [2, rest @ ..] => Ok((Kind::Str, rest)),
        [3, rest @ ..] => Ok((Kind::Bool, rest)),
        [_, ..] => Err(Stop::Left(bytes.len())),
    }
}

#[tactic(auto, unfolding(crate::specs::Table::flag_at))]
fn flag(bytes: &[u8]) -> Result<(bool, &[u8]), Stop>
    ensures { IsRead (λ x. (x.0, x.1.now)) result (flag_at bytes.now) }
{
    match bytes {
        [] => Err(Stop::Left(0)),
        [0, rest @ ..] => Ok((false, rest)),
        [1, rest @ ..] => Ok((true, rest)),
        [_, ..] => Err(Stop::Left(bytes.len())),
    }
}

fn any_attribute(attributes: &List<Attribute>, name: &Name) -> bool
    ensures { result ≡ list_any (λ attribute. bytes_eq name.now attribute.name) attributes.now }
{
    attributes
        .as_slice()
        .iter()
        .any(|attribute| is_same(name, &attribute.name))
}

/// Whether an attribute has this name.
pub(crate) fn is_attribute(attributes: &List<Attribute>, name: &Name) -> bool
    ensures { result ≡ is_among name.now (attribute_names attributes.now) }
{
    any_attribute(attributes, name)
}

/// An attribute behind others.
#[tactic(auto, unfolding(crate::specs::Table::attribute_at, crate::specs::Table::typed_at))]
fn attribute<'a>(
    alloc: Global,
    before: &List<Attribute>,
    bytes: &'a [u8],
) -> Result<(Attribute, &'a [u8]), Stop>
    ensures { IsRead (λ x. (x.0, x.1.now)) result (attribute_at before.now bytes.now) }
{
    let (name, rest) = name(alloc, bytes)?;
    if is_attribute(before, &name) {
        return Err(Stop::Left(bytes.len()));
    }
    let (kind, rest) = kind(rest)?;
    let (nullable, rest) = flag(rest)?;
    Ok((
        Attribute {
            name,
            kind,
            nullable,
        },
        rest,
    ))
}

fn attributes_from(alloc: Global, count: u8, bytes: &[u8]) -> Result<(List<Attribute>, &[u8]), Stop>
    ensures { IsRead (λ x. (x.0, x.1.now)) result (repeat next_attribute with_last count [] bytes.now) }
{
    let mut attributes = List::new(alloc);
    let mut rest = bytes;
    for _index in 0..count {
        let (attribute, after) = attribute(alloc, &attributes, rest)?;
        attributes.push(attribute)?;
        rest = after;
    }
    Ok((attributes, rest))
}

/// The attributes of a schema, with their count before them.
#[tactic(auto, unfolding(crate::specs::Table::attributes_at))]
pub(crate) fn attributes(alloc: Global, bytes: &[u8]) -> Result<(List<Attribute>, &[u8]), Stop>
    ensures { IsRead (λ x. (x.0, x.1.now)) result (attributes_at bytes.now) }
{
    let (count, rest) = u8_at(bytes)?;
    if !(1 <= count && count <= 64) {
        return Err(Stop::Left(bytes.len()));
    }
    attributes_from(alloc, count, rest)
}
