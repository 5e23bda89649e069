//! The rules on the dimensions and attributes of a target.
ghost use Rattle.std.specs.Prelude.{◌≡◌, ◌≤◌, ◌&&◌, if◌then◌else◌, length, map, None, Some};
ghost use Rattle.std.specs.List.{find, list_all, list_any};
ghost use Rattle.std.specs.Option.{option_copied};
ghost use Rattle.std.specs.Str.{bytes_eq};
ghost use Rattle.cell_values.specs.Schemas.{attribute_names, is_among};
ghost use Rattle.expr_nulls.specs.Typing.{same_kind};
ghost use Rattle.logical_plan.specs.Groups.{first_some};
ghost use Rattle.logical_plan.specs.PlanSchema.{aggregate_kind};
ghost use Rattle.logical_plan.specs.Redimension.{counted_places, from_attribute, named, origin_of};
ghost use Rattle.logical_plan.specs.Typing.{aggregate_names, synthetic_count};
ghost use Rattle.check_sources.specs.Targets.{attributes_fault, carried_fault, gathered_fault, is_synthetic, may_count, origin_fault, unnamed_fault};

use afl_trees::Tree;
use cell_values::{Attribute, Dimension, Kind, Schema};
use check_exprs::{attribute_place, dimension_place, fits};
use check_rules::same_name;
use logical_plan::{AggFunction, Aggregate};
use schema_grammar::TypeKind;

/// Whether there is an `int64` attribute of a name.
fn has_number(attributes: &[Attribute], name: &[u8]) -> bool
    ensures { result ≡ list_any (λ a. bytes_eq a.name name.now && same_kind a.kind Kind.Int64) attributes.now }
{
    attributes.iter().any(|attribute| {
        same_name(&attribute.name, name) && fits(Kind::Int64, Some(attribute.kind))
    })
}

/// Whether a dimension of a target is neither a dimension of the source nor an `int64` attribute of it.
#[tactic(auto, using(crate::proofs::Origins::is_own, crate::proofs::Origins::not_own))]
fn is_synthetic(source: &Schema, dimension: &Dimension) -> bool
    ensures { result ≡ is_synthetic source.now dimension.now }
{
    let name = dimension.name.as_slice();
    match dimension_place(source.dimensions.as_slice(), name) {
        Some(_) => false,
        None => !has_number(source.attributes.as_slice(), name),
    }
}

fn count_synthetic(source: &Schema, dimensions: &[Dimension]) -> usize
    ensures value { result ≡ length (counted_places (map (origin_of source.now) dimensions.now) 0) }
    ensures within { result ≤ length dimensions.now }
{
    match dimensions {
        [] => 0,
        [first, rest @ ..] => {
            usize::from(is_synthetic(source, first)) + count_synthetic(source, rest)
        }
    }
}

/// How many dimensions of a target are synthetic.
fn synthetic_count(source: &Schema, target: &Schema) -> usize
    ensures { result ≡ synthetic_count source.now target.now }
{
    count_synthetic(source, target.dimensions.as_slice())
}

/// Whether a target may have its synthetic dimensions beside these aggregates.
pub(crate) fn may_count(source: &Schema, target: &Schema, aggregates: &[Tree]) -> bool
    ensures { result ≡ may_count (synthetic_count source.now target.now) aggregates.now }
{
    let count = synthetic_count(source, target);
    if aggregates.is_empty() {
        count <= 1
    } else {
        count == 0
    }
}

/// The rule that values of a kind break in an attribute of another.
fn kind_fault(wanted: Kind, kind: Kind) -> Option<TypeKind>
    ensures { result ≡ (if same_kind kind wanted then None else Some TypeKind.WrongType) }
{
    if fits(wanted, Some(kind)) {
        None
    } else {
        Some(TypeKind::WrongType)
    }
}

/// The rule that values of the attribute at a place break in an attribute of this kind.
fn attribute_fault(attributes: &[Attribute], wanted: Kind, place: usize) -> Option<TypeKind>
    ensures { result ≡ origin_fault attributes.now wanted (from_attribute place) }
{
    match attributes.get(place) {
        Some(attribute) => kind_fault(wanted, attribute.kind),
        None => Some(TypeKind::WrongType),
    }
}

/// The rule that an attribute of a target without aggregates breaks.
#[tactic(auto, using(crate::proofs::Origins::of_attribute, crate::proofs::Origins::of_numbers, crate::proofs::Origins::of_nothing))]
fn carried_fault(source: &Schema, attribute: &Attribute) -> Option<TypeKind>
    ensures { result ≡ carried_fault source.now attribute.now }
{
    let name = attribute.name.as_slice();
    match attribute_place(source.attributes.as_slice(), name) {
        Some(place) => attribute_fault(source.attributes.as_slice(), attribute.kind, place),
        None => match dimension_place(source.dimensions.as_slice(), name) {
            Some(_) => kind_fault(Kind::Int64, attribute.kind),
            None => Some(TypeKind::UnknownName),
        },
    }
}

/// The first rule that the attributes of a target without aggregates break.
fn first_carried(source: &Schema, attributes: &[Attribute]) -> Option<TypeKind>
    ensures { result ≡ first_some (carried_fault source.now) attributes.now }
{
    for attribute in attributes {
        if let Some(kind) = carried_fault(source, attribute) {
            return Some(kind);
        }
    }
    None
}

fn find_aggregate<'a>(aggregates: &'a [Aggregate], name: &[u8]) -> Option<&'a Aggregate>
    ensures { option_copied result ≡ find (λ g. bytes_eq g.name name.now) aggregates.now }
{
    aggregates
        .iter()
        .find(|aggregate| same_name(&aggregate.name, name))
}

/// The aggregate of a name.
fn aggregate_named<'a>(aggregates: &'a [Aggregate], name: &[u8]) -> Option<&'a Aggregate>
    ensures { option_copied result ≡ named aggregates.now name.now }
{
    find_aggregate(aggregates, name)
}

/// The kind of an aggregate's value.
fn kind_of(attributes: &[Attribute], aggregate: &Aggregate) -> Kind
    ensures { result ≡ aggregate_kind attributes.now aggregate.now }
{
    match aggregate.function {
        AggFunction::Min | AggFunction::Max => {
            match attributes.get(aggregate.attribute as usize) {
                Some(attribute) => attribute.kind,
                None => Kind::Int64,
            }
        }
        AggFunction::Sum | AggFunction::Count | AggFunction::CountAll => Kind::Int64,
    }
}

/// The rule that an attribute of a target breaks beside aggregates of the source's attributes.
fn gathered_fault(
    attributes: &[Attribute],
    aggregates: &[Aggregate],
    attribute: &Attribute,
) -> Option<TypeKind>
    ensures { result ≡ gathered_fault attributes.now aggregates.now attribute.now }
{
    match aggregate_named(aggregates, attribute.name.as_slice()) {
        Some(aggregate) => kind_fault(attribute.kind, kind_of(attributes, aggregate)),
        None => Some(TypeKind::UnknownName),
    }
}

/// The first rule that attributes of a target break beside aggregates.
fn first_gathered(
    source: &[Attribute],
    aggregates: &[Aggregate],
    attributes: &[Attribute],
) -> Option<TypeKind>
    ensures { result ≡ first_some (gathered_fault source.now aggregates.now) attributes.now }
{
    for attribute in attributes {
        if let Some(kind) = gathered_fault(source, aggregates, attribute) {
            return Some(kind);
        }
    }
    None
}

fn any_attribute(attributes: &[Attribute], name: &[u8]) -> bool
    ensures { result ≡ list_any (λ other. bytes_eq name.now other.name) attributes.now }
{
    attributes.iter().any(|other| name == other.name.as_slice())
}

/// Whether an attribute has this name.
fn has_attribute(attributes: &[Attribute], name: &[u8]) -> bool
    ensures { result ≡ is_among name.now (attribute_names attributes.now) }
{
    any_attribute(attributes, name)
}

fn all_named(attributes: &[Attribute], aggregates: &[Aggregate]) -> bool
    ensures { result ≡ list_all (λ g. is_among g.name (attribute_names attributes.now)) aggregates.now }
{
    aggregates.iter().all(|aggregate| has_attribute(attributes, aggregate.name.as_slice()))
}

/// The rule that an aggregate breaks that no attribute names.
#[tactic(auto, using(crate::proofs::Origins::each_named, crate::proofs::Origins::not_each_named))]
fn unnamed_fault(attributes: &[Attribute], aggregates: &[Aggregate]) -> Option<TypeKind>
    ensures { result ≡ unnamed_fault attributes.now aggregates.now }
{
    if all_named(attributes, aggregates) {
        None
    } else {
        Some(TypeKind::UnknownName)
    }
}

/// The first rule that the attributes of a target break.
pub(crate) fn attributes_fault(
    source: &Schema,
    target: &Schema,
    aggregates: &[Aggregate],
) -> Option<TypeKind>
    ensures { result ≡ attributes_fault source.now target.now aggregates.now }
{
    let attributes = target.attributes.as_slice();
    if aggregates.is_empty() {
        return first_carried(source, attributes);
    }
    match first_gathered(source.attributes.as_slice(), aggregates, attributes) {
        Some(kind) => Some(kind),
        None => unnamed_fault(attributes, aggregates),
    }
}
