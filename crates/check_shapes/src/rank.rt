//! `rank`.
ghost use Rattle.std.specs.Prelude.{◌≡◌, ◌<◌, ◌≤◌, ◌^◌, length, slice_get, IfSome, Some};
ghost use Rattle.check_rules.specs.Checked.{Answers};
ghost use Rattle.check_exprs.specs.Expressions.{attribute_place};
ghost use Rattle.check_shapes.specs.Rank.{has_order, rank_first, rank_name_fits, rank_of, rank_parts, ranked_place};

use crate::names::is_dimension_name;
use afl_trees::{Node, Tree};
use cell_values::{Attribute, Dimension, Kind, List, Name, Schema, Span};
use check_exprs::attribute_place;
use check_groups::{dimension_places, with_ending};
use check_rules::{TypeFault, broken, first_but_names, same_name, wrong_type};
use schema_grammar::TypeKind;
use std::alloc::Global;

/// The parts of a `rank` besides its source.
#[derive(Drop)]
pub struct Ranking {
    /// The place of the attribute whose values are ranked, from 0.
    pub attribute: u32,
    /// The places of the dimensions whose coordinates make a group, from 0.
    pub dimensions: List<u32>,
}

/// Whether the values of an attribute have a rank.
fn has_order(attribute: &Attribute) -> bool
    ensures { result ≡ has_order (Some attribute.now) }
{
    match attribute.kind {
        Kind::Int64 | Kind::Str => true,
        Kind::Bool => false,
    }
}

/// Whether the values of the attribute at a place have a rank.
fn has_order_at(attributes: &[Attribute], place: usize) -> bool
    ensures { result ≡ has_order (slice_get attributes.now place) }
{
    match attributes.get(place) {
        Some(attribute) => has_order(attribute),
        None => false,
    }
}

/// The place of an attribute that there is, whose values have a rank.
fn ranked_place(
    attributes: &[Attribute],
    span: Span,
    place: Option<usize>,
) -> Result<u32, TypeFault>
    requires { IfSome place (λ at. at < 2 ^ 32) }
    ensures { Answers result (ranked_place attributes.now span place) }
{
    match place {
        Some(place) => {
            if !has_order_at(attributes, place) {
                return Err(broken(span, TypeKind::WrongType));
            }
            Ok(place as u32)
        }
        None => Err(broken(span, TypeKind::UnknownName)),
    }
}

/// The place of the attribute of a name, whose values have a rank.
fn ranked_attribute(attributes: &[Attribute], span: Span, name: &[u8]) -> Result<u32, TypeFault>
    requires { length attributes.now ≤ 64 }
    ensures { Answers result (ranked_place attributes.now span (attribute_place attributes.now name.now)) }
{
    let place = attribute_place(attributes, name);
    ranked_place(attributes, span, place)
}

/// That the rank of an attribute may have its name beside dimensions. `at` is the place of the attribute's name.
#[tactic(auto, using(check_rules::proofs::Steps::ok_then, check_rules::proofs::Steps::err_then))]
fn check_rank_name(
    alloc: Global,
    span: Span,
    at: Span,
    dimensions: &[Dimension],
    name: &Name,
) -> Result<(), TypeFault>
    ensures { Answers result (rank_name_fits span at dimensions.now name.now) }
{
    let rank = with_ending(alloc, span, name, b"_rank".as_slice())?;
    if same_name(&rank, name.as_slice()) || is_dimension_name(dimensions, rank.as_slice()) {
        return Err(broken(at, TypeKind::RepeatedName));
    }
    Ok(())
}

/// An attribute, whose name stands at a place, and dimensions.
#[tactic(auto, using(check_rules::proofs::Steps::ok_then, check_rules::proofs::Steps::err_then))]
fn rank_of(
    alloc: Global,
    span: Span,
    source: &Schema,
    at: Span,
    name: &Name,
    names: &[Tree],
) -> Result<Ranking, TypeFault>
    requires attributes { length source.now.attributes ≤ 64 }
    requires dimensions { length source.now.dimensions ≤ 6 }
    ensures { Answers result (rank_of span source.now at name.now names.now) }
{
    if let Some(other) = first_but_names(names) {
        return Err(broken(other, TypeKind::WrongType));
    }
    let attribute = ranked_attribute(source.attributes.as_slice(), at, name.as_slice())?;
    let dimensions = dimension_places(alloc, source.dimensions.as_slice(), names)?;
    check_rank_name(alloc, span, at, source.dimensions.as_slice(), name)?;
    Ok(Ranking {
        attribute,
        dimensions,
    })
}

/// The attribute that an argument names, and dimensions.
fn rank_first(
    alloc: Global,
    span: Span,
    source: &Schema,
    first: &Tree,
    names: &[Tree],
) -> Result<Ranking, TypeFault>
    requires attributes { length source.now.attributes ≤ 64 }
    requires dimensions { length source.now.dimensions ≤ 6 }
    ensures { Answers result (rank_first span source.now first.now names.now) }
{
    match &first.node {
        Node::Ref(name) => rank_of(alloc, span, source, first.span, name, names),
        _ => Err(wrong_type(first)),
    }
}

/// The parts of `rank` over a source of this schema, with the names behind the source.
///
/// `span` is that of the whole call.
pub fn rank_parts(
    alloc: Global,
    span: Span,
    source: &Schema,
    names: &[Tree],
) -> Result<Ranking, TypeFault>
    requires attributes { length source.now.attributes ≤ 64 }
    requires dimensions { length source.now.dimensions ≤ 6 }
    ensures { Answers result (rank_parts span source.now names.now) }
{
    match names {
        [] => Err(broken(span, TypeKind::WrongCount)),
        [first, names @ ..] => rank_first(alloc, span, source, first, names),
    }
}
