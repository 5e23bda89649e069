//! Aggregates in turn.
ghost use Rattle.std.specs.Prelude.{◌≡◌, ◌<◌, ◌≤◌, ◌^◌, [], codes, length, slice_get, IfOk, IfSome, Ok, Some};
ghost use Rattle.std.specs.List.{list_any};
ghost use Rattle.std.specs.Str.{bytes_eq};
ghost use Rattle.cell_values.specs.Schemas.{is_among};
ghost use Rattle.logical_plan.specs.PlanSchema.{default_name};
ghost use Rattle.logical_plan.specs.Typing.{aggregate_names, takes};
ghost use Rattle.check_rules.specs.Checked.{Answers};
ghost use Rattle.check_exprs.specs.Expressions.{attribute_place};
ghost use Rattle.check_groups.specs.Names.{short_name};
ghost use Rattle.check_groups.specs.Aggregates.{aggregate_one, aggregates_of, attribute_for, attribute_in, given_or, name_for, new_aggregate};

use crate::aggregates::sort::{function_in, operand_in, unnamed};
use crate::names::{is_given, with_ending};
use afl_trees::{Node, Tree};
use cell_values::{Attribute, Kind, List, Memory, Name, Span};
use check_exprs::attribute_place;
use check_rules::{TypeFault, broken, wrong_type};
use logical_plan::{AggFunction, Aggregate};
use schema_grammar::TypeKind;
use std::alloc::Global;

/// Whether a function takes the values of an attribute.
fn takes_attribute(function: AggFunction, attribute: &Attribute) -> bool
    ensures { result ≡ takes function (Some attribute.now) }
{
    match (function, attribute.kind) {
        (AggFunction::CountAll | AggFunction::Count, _) => true,
        (AggFunction::Sum | AggFunction::Min | AggFunction::Max, Kind::Int64) => true,
        (AggFunction::Min | AggFunction::Max, Kind::Str) => true,
        _ => false,
    }
}

/// Whether a function takes the values of the attribute at a place.
fn takes_at(attributes: &[Attribute], function: AggFunction, place: usize) -> bool
    ensures { result ≡ takes function (slice_get attributes.now place) }
{
    match attributes.get(place) {
        Some(attribute) => takes_attribute(function, attribute),
        None => matches!(function, AggFunction::CountAll),
    }
}

/// The place of an attribute that there is, of which a function takes values.
fn attribute_for(
    attributes: &[Attribute],
    function: AggFunction,
    span: Span,
    place: Option<usize>,
) -> Result<u32, TypeFault>
    requires { IfSome place (λ at. at < 2 ^ 32) }
    ensures { Answers result (attribute_for attributes.now function span place) }
{
    match place {
        Some(place) => {
            if !takes_at(attributes, function, place) {
                return Err(broken(span, TypeKind::WrongType));
            }
            Ok(place as u32)
        }
        None => Err(broken(span, TypeKind::UnknownName)),
    }
}

/// The place of the attribute of a name, of which a function takes values.
fn attribute_named(
    attributes: &[Attribute],
    function: AggFunction,
    span: Span,
    name: &[u8],
) -> Result<u32, TypeFault>
    requires { length attributes.now ≤ 64 }
    ensures { Answers result (attribute_for attributes.now function span (attribute_place attributes.now name.now)) }
{
    let place = attribute_place(attributes, name);
    attribute_for(attributes, function, span, place)
}

/// The place of the attribute that an operand names; `*` names none.
fn attribute_in(
    attributes: &[Attribute],
    function: AggFunction,
    operand: &Tree,
) -> Result<u32, TypeFault>
    requires { length attributes.now ≤ 64 }
    ensures { Answers result (attribute_in attributes.now function operand.now) }
{
    match &operand.node {
        Node::Ref(name) => attribute_named(attributes, function, operand.span, name.as_slice()),
        _ => Ok(0),
    }
}

/// The name of an aggregate of all cells.
fn cells_name(alloc: Global) -> Result<Name, Memory>
    ensures { IfOk result (λ name. name ≡ codes "count") }
{
    let Some(name) = Name::new(List::from_slice(alloc, b"count".as_slice())?) else {
        unreachable!()
    };
    Ok(name)
}

/// The name of an aggregate of an attribute that is given none.
fn default_name(
    alloc: Global,
    span: Span,
    function: AggFunction,
    name: &Name,
) -> Result<Name, TypeFault>
    ensures { Answers result (short_name span (default_name function name.now)) }
{
    match function {
        AggFunction::Sum => with_ending(alloc, span, name, b"_sum".as_slice()),
        AggFunction::Count => with_ending(alloc, span, name, b"_count".as_slice()),
        AggFunction::CountAll => Ok(cells_name(alloc)?),
        AggFunction::Min => with_ending(alloc, span, name, b"_min".as_slice()),
        AggFunction::Max => with_ending(alloc, span, name, b"_max".as_slice()),
    }
}

/// The name behind `as`, or else the one that an aggregate of an attribute has of its own.
fn name_over(
    alloc: Global,
    span: Span,
    tree: &Tree,
    function: AggFunction,
    attribute: &Name,
) -> Result<Name, TypeFault>
    ensures { Answers result (given_or tree.now (short_name span (default_name function attribute.now))) }
{
    match &tree.node {
        Node::As(_, name) => Ok(name.copy()?),
        _ => default_name(alloc, span, function, attribute),
    }
}

/// The name behind `as`, or else the one that an aggregate of all cells has of its own.
fn name_of_cells(alloc: Global, tree: &Tree) -> Result<Name, TypeFault>
    ensures { Answers result (given_or tree.now (Ok (codes "count"))) }
{
    match &tree.node {
        Node::As(_, name) => Ok(name.copy()?),
        _ => Ok(cells_name(alloc)?),
    }
}

/// The name behind `as`, or else the one that an aggregate of an operand has of its own.
fn name_for(
    alloc: Global,
    span: Span,
    tree: &Tree,
    function: AggFunction,
    operand: &Tree,
) -> Result<Name, TypeFault>
    ensures { Answers result (name_for span tree.now function operand.now) }
{
    match &operand.node {
        Node::Ref(attribute) => name_over(alloc, span, tree, function, attribute),
        _ => name_of_cells(alloc, tree),
    }
}

fn any_aggregate(done: &[Aggregate], name: &[u8]) -> bool
    ensures { result ≡ list_any (λ other. bytes_eq name.now other.name) done.now }
{
    done.iter().any(|other| name == other.name.as_slice())
}

/// Whether an aggregate has this name.
fn is_aggregate_name(done: &[Aggregate], name: &[u8]) -> bool
    ensures { result ≡ is_among name.now (aggregate_names done.now) }
{
    any_aggregate(done, name)
}

/// An aggregate of a name that is new.
fn new_aggregate(
    names: &[Name],
    done: &[Aggregate],
    span: Span,
    function: AggFunction,
    attribute: u32,
    name: Name,
) -> Result<Aggregate, TypeFault>
    ensures { Answers result (new_aggregate names.now done.now span function attribute name) }
{
    if is_given(names, name.as_slice()) || is_aggregate_name(done, name.as_slice()) {
        return Err(broken(span, TypeKind::RepeatedName));
    }
    Ok(Aggregate {
        function,
        attribute,
        name,
    })
}

/// The aggregate that an argument is, behind others.
#[tactic(auto, using(check_rules::proofs::Steps::ok_then, check_rules::proofs::Steps::err_then))]
fn aggregate_one(
    alloc: Global,
    span: Span,
    attributes: &[Attribute],
    names: &[Name],
    done: &[Aggregate],
    tree: &Tree,
) -> Result<Aggregate, TypeFault>
    requires { length attributes.now ≤ 64 }
    ensures { Answers result (aggregate_one span attributes.now names.now done.now tree.now) }
{
    let call = unnamed(tree);
    let Some(function) = function_in(call) else {
        return Err(wrong_type(tree));
    };
    let Some(operand) = operand_in(call) else {
        return Err(wrong_type(tree));
    };
    let attribute = attribute_in(attributes, function, operand)?;
    let name = name_for(alloc, span, tree, function, operand)?;
    new_aggregate(names, done, tree.span, function, attribute, name)
}

/// The aggregates that arguments are, over these attributes, for a result whose dimensions have these names.
///
/// `span` is that of the whole call.
#[tactic(auto, using(check_rules::proofs::Steps::ok_then, check_rules::proofs::Steps::err_then))]
pub fn aggregates_of(
    alloc: Global,
    span: Span,
    attributes: &[Attribute],
    names: &[Name],
    arguments: &[Tree],
) -> Result<List<Aggregate>, TypeFault>
    requires { length attributes.now ≤ 64 }
    ensures { Answers result (aggregates_of span attributes.now names.now arguments.now) }
{
    let mut done = List::with_capacity(alloc, arguments.len())?;
    for argument in arguments {
        let aggregate = aggregate_one(alloc, span, attributes, names, done.as_slice(), argument)?;
        done.push(aggregate)?;
    }
    Ok(done)
}
