//! `slice`.
ghost use Rattle.std.specs.Prelude.{◌≡◌, ◌==◌, ◌≤◌, ◌<◌, ◌^◌, nat_le, length, [], IfSome};
ghost use Rattle.std.specs.List.{list_any};
ghost use Rattle.schema_grammar.specs.declared.kinds.TypeKind.{TypeKind};
ghost use Rattle.logical_plan.specs.BoxOps.{fixed_places};
ghost use Rattle.logical_plan.specs.PlanSchema.{schema_of};
ghost use Rattle.check_rules.specs.Checked.{Answers, demand};
ghost use Rattle.check_rules.specs.InTurn.{new_place, pairs_in_turn};
ghost use Rattle.check_rules.specs.NewSchema.{of_new_schema};
ghost use Rattle.check_cellwise.specs.Slice.{fixed_at, fixed_named, fixed_one, of_rest, slice_call, slice_of};

use afl_trees::{Node, Tree};
use cell_values::{Dimension, List, Memory, Span};
use check_exprs::dimension_place;
use check_rules::{
    TypeFault, broken, first_but_places, number_in, of_new_schema, shape_of, wrong_type,
};
use logical_plan::{Fixed, Plan, let_go};
use schema_grammar::TypeKind;
use std::alloc::Global;

fn fixed_at(span: Span, dimension: u32, at: Option<i64>) -> Result<Fixed, TypeFault>
    ensures { Answers result (fixed_at span dimension at) }
{
    match at {
        Some(at) => Ok(Fixed { dimension, at }),
        None => Err(broken(span, TypeKind::WrongType)),
    }
}

/// Whether a place is that of one of these.
fn has_place(done: &[Fixed], place: u32) -> bool
    ensures { result ≡ list_any (λ fixed. fixed.dimension == place) done.now }
{
    done.iter().any(|fixed| fixed.dimension == place)
}

/// Whether a dimension is held.
fn is_held(done: &[Fixed], place: u32) -> bool
    ensures { result ≡ list_any (λ other. other == place) (fixed_places done.now) }
{
    has_place(done, place)
}

/// The place of a dimension that there is, if it is not yet held.
fn new_place(span: Span, done: &[Fixed], place: Option<usize>) -> Result<u32, TypeFault>
    requires { IfSome place (λ at. at < 2 ^ 32) }
    ensures { Answers result (new_place span (fixed_places done.now) place) }
{
    match place {
        Some(place) => {
            let place = place as u32;
            if is_held(done, place) {
                return Err(broken(span, TypeKind::RepeatedName));
            }
            Ok(place)
        }
        None => Err(broken(span, TypeKind::UnknownName)),
    }
}

/// The dimension of a name, held at a number.
#[tactic(auto, using(check_rules::proofs::Steps::ok_then, check_rules::proofs::Steps::err_then))]
fn fixed_named(
    dimensions: &[Dimension],
    done: &[Fixed],
    span: Span,
    name: &[u8],
    number: &Tree,
) -> Result<Fixed, TypeFault>
    requires { length dimensions.now ≤ 6 }
    ensures { Answers result (fixed_named dimensions.now done.now span name.now number.now) }
{
    let place = new_place(span, done, dimension_place(dimensions, name))?;
    fixed_at(number.span, place, number_in(number))
}

/// A dimension that is named, held at a number.
fn fixed_one(
    dimensions: &[Dimension],
    done: &[Fixed],
    name: &Tree,
    number: &Tree,
) -> Result<Fixed, TypeFault>
    requires { length dimensions.now ≤ 6 }
    ensures { Answers result (fixed_one dimensions.now done.now name.now number.now) }
{
    match &name.node {
        Node::Ref(known) => fixed_named(dimensions, done, name.span, known.as_slice(), number),
        _ => Err(wrong_type(name)),
    }
}

/// The dimensions that are named, each held at a number.
#[tactic(auto, using(check_rules::proofs::Steps::ok_then, check_rules::proofs::Steps::err_then))]
fn fixed_all(
    alloc: Global,
    dimensions: &[Dimension],
    arguments: &[Tree],
) -> Result<List<Fixed>, TypeFault>
    requires { length dimensions.now ≤ 6 }
    ensures { Answers result (pairs_in_turn (fixed_one dimensions.now) [] arguments.now) }
{
    let mut done = List::new(alloc);
    let mut left = arguments;
    while let [name, number, rest @ ..] = left {
        let fixed = fixed_one(dimensions, done.as_slice(), name, number)?;
        done.push(fixed)?;
        left = rest;
    }
    Ok(done)
}

/// A slice with these dimensions, where there is one.
fn with_some(alloc: Global, span: Span, left: &[Dimension], slice: Plan) -> Result<Plan, TypeFault>
    ensures { Answers result (demand (nat_le 1 (length left.now)) span TypeKind.WrongCount (of_new_schema span slice)) }
{
    if left.is_empty() {
        let_go(slice);
        return Err(broken(span, TypeKind::WrongCount));
    }
    of_new_schema(alloc, span, slice)
}

/// The slice, where a dimension is left.
fn of_rest(alloc: Global, span: Span, slice: Plan) -> Result<Plan, TypeFault>
    ensures { Answers result (of_rest span slice) }
{
    match shape_of(alloc, &slice) {
        Ok(schema) => with_some(alloc, span, schema.dimensions.as_slice(), slice),
        Err(Memory) => {
            let_go(slice);
            Err(TypeFault::Memory)
        }
    }
}

/// The slice of a source of these dimensions.
#[tactic(auto, using(check_rules::proofs::Steps::ok_then, check_rules::proofs::Steps::err_then))]
fn slice_of(
    alloc: Global,
    span: Span,
    source: Plan,
    dimensions: &[Dimension],
    arguments: &[Tree],
) -> Result<Plan, TypeFault>
    requires { length dimensions.now ≤ 6 }
    ensures { Answers result (slice_of span source dimensions.now arguments.now) }
{
    match fixed_all(alloc, dimensions, arguments) {
        Ok(fixed) => of_rest(alloc, span, Plan::slice(alloc, source, fixed)?),
        Err(fault) => {
            let_go(source);
            Err(fault)
        }
    }
}

/// The slice of a source.
fn slice_places(
    alloc: Global,
    span: Span,
    source: Plan,
    arguments: &[Tree],
) -> Result<Plan, TypeFault>
    requires { length (schema_of source).dimensions ≤ 6 }
    ensures { Answers result (slice_of span source (schema_of source).dimensions arguments.now) }
{
    match shape_of(alloc, &source) {
        Ok(schema) => slice_of(alloc, span, source, schema.dimensions.as_slice(), arguments),
        Err(Memory) => {
            let_go(source);
            Err(TypeFault::Memory)
        }
    }
}

/// `slice` of a source, with what stands behind it.
pub fn slice_call(
    alloc: Global,
    span: Span,
    source: Plan,
    arguments: &[Tree],
) -> Result<Plan, TypeFault>
    requires { length (schema_of source).dimensions ≤ 6 }
    ensures { Answers result (slice_call span source arguments.now) }
{
    match first_but_places(arguments) {
        Some(other) => {
            let_go(source);
            Err(broken(other, TypeKind::WrongType))
        }
        None => slice_places(alloc, span, source, arguments),
    }
}
