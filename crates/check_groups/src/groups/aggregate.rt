//! `aggregate`.
ghost use Rattle.std.specs.Prelude.{◌≡◌, ◌≤◌, ◌++◌, codes, length, map, slice_get, IfOk, OnOk};
ghost use Rattle.std.specs.Option.{option_to_list};
ghost use Rattle.cell_values.specs.Schemas.{dimension_names};
ghost use Rattle.logical_plan.specs.BoxOps.{items_at};
ghost use Rattle.logical_plan.specs.PlanSchema.{group_dimensions, without_overlap};
ghost use Rattle.check_rules.specs.Checked.{Answers};
ghost use Rattle.check_groups.specs.Groups.{aggregate_parts, groups_of, with_places};

use crate::aggregates::{aggregates_of, leading_aggregates};
use crate::names::dimension_places;
use afl_trees::Tree;
use cell_values::{Dimension, List, Memory, Name, Schema, Span};
use check_rules::{TypeFault, broken, first_but_names};
use logical_plan::Aggregate;
use schema_grammar::TypeKind;
use std::alloc::Global;

/// The parts of an `aggregate` besides its source.
#[derive(Drop)]
pub struct Groups {
    pub aggregates: List<Aggregate>,
    /// The places of the dimensions that are named, from 0.
    pub places: List<u32>,
}

/// The name of the one dimension of an aggregate of all cells.
fn single_name(alloc: Global) -> Result<Name, Memory>
    ensures { IfOk result (λ name. name ≡ codes "i") }
{
    let Some(name) = Name::new(List::from_slice(alloc, b"i".as_slice())?) else {
        unreachable!()
    };
    Ok(name)
}

fn push_name_at(
    names: &mut List<Name>,
    dimensions: &[Dimension],
    place: usize,
) -> Result<(), Memory>
    ensures { OnOk result (names.new ≡ names.old ++ dimension_names (map without_overlap (option_to_list (slice_get dimensions.now place)))) }
{
    match dimensions.get(place) {
        Some(dimension) => names.push(dimension.name.copy()?),
        None => Ok(()),
    }
}

/// The names of the dimensions at these places.
#[tactic(auto, using(crate::proofs::GroupNames::named_at_step))]
fn names_at(alloc: Global, dimensions: &[Dimension], places: &[u32]) -> Result<List<Name>, Memory>
    ensures { IfOk result (λ names. names ≡ dimension_names (map without_overlap (items_at places.now dimensions.now))) }
{
    let mut names = List::with_capacity(alloc, places.len())?;
    for place in places {
        push_name_at(&mut names, dimensions, *place as usize)?;
    }
    Ok(names)
}

/// The names of the dimensions of groups: of those at these places, or of a single one.
fn group_names(
    alloc: Global,
    dimensions: &[Dimension],
    places: &[u32],
) -> Result<List<Name>, Memory>
    ensures { IfOk result (λ names. names ≡ dimension_names (group_dimensions places.now dimensions.now)) }
{
    if !places.is_empty() {
        return names_at(alloc, dimensions, places);
    }
    let mut names = List::new(alloc);
    names.push(single_name(alloc)?)?;
    Ok(names)
}

/// Groups with their aggregates.
#[tactic(auto, using(check_rules::proofs::Steps::ok_then, check_rules::proofs::Steps::err_then))]
fn with_places(
    alloc: Global,
    span: Span,
    source: &Schema,
    arguments: &[Tree],
    places: List<u32>,
) -> Result<Groups, TypeFault>
    requires { length source.now.attributes ≤ 64 }
    ensures { Answers result (with_places span source.now arguments.now places) }
{
    let names = group_names(alloc, source.dimensions.as_slice(), places.as_slice())?;
    let attributes = source.attributes.as_slice();
    let aggregates = aggregates_of(alloc, span, attributes, names.as_slice(), arguments)?;
    Ok(Groups { aggregates, places })
}

/// Aggregates, and names of dimensions.
#[tactic(auto, using(check_rules::proofs::Steps::ok_then, check_rules::proofs::Steps::err_then))]
fn groups_of(
    alloc: Global,
    span: Span,
    source: &Schema,
    aggregates: &[Tree],
    names: &[Tree],
) -> Result<Groups, TypeFault>
    requires attributes { length source.now.attributes ≤ 64 }
    requires dimensions { length source.now.dimensions ≤ 6 }
    ensures { Answers result (groups_of span source.now aggregates.now names.now) }
{
    if let Some(other) = first_but_names(names) {
        return Err(broken(other, TypeKind::WrongType));
    }
    if aggregates.is_empty() {
        return Err(broken(span, TypeKind::WrongCount));
    }
    let places = dimension_places(alloc, source.dimensions.as_slice(), names)?;
    with_places(alloc, span, source, aggregates, places)
}

/// The parts of `aggregate` over a source of this schema, with what stands behind the source.
///
/// `span` is that of the whole call.
pub fn aggregate_parts(
    alloc: Global,
    span: Span,
    source: &Schema,
    arguments: &[Tree],
) -> Result<Groups, TypeFault>
    requires attributes { length source.now.attributes ≤ 64 }
    requires dimensions { length source.now.dimensions ≤ 6 }
    ensures { Answers result (aggregate_parts span source.now arguments.now) }
{
    let (aggregates, names) = arguments.split_at(leading_aggregates(arguments));
    groups_of(alloc, span, source, aggregates, names)
}
