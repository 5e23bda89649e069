//! `between` and `subarray`.
ghost use Rattle.std.specs.Prelude.{◌≡◌, ◌≤◌, length, Ok};
ghost use Rattle.std.specs.List.{list_all};
ghost use Rattle.cell_values.specs.Schemas.{bounds_in_order, bounds_in_range, is_bound};
ghost use Rattle.schema_grammar.specs.declared.kinds.TypeKind.{TypeKind};
ghost use Rattle.logical_plan.specs.PlanSchema.{schema_of};
ghost use Rattle.logical_plan.specs.Query.{between, subarray};
ghost use Rattle.check_rules.specs.Checked.{Answers, demand};
ghost use Rattle.check_rules.specs.NewSchema.{of_new_schema};
ghost use Rattle.check_cellwise.specs.Boxes.{between_call, by_count, by_parts, of_parts, subarray_call};

use crate::boxes::area::box_of;
use afl_trees::Tree;
use cell_values::{Dimension, Memory, Span};
use check_rules::{TypeFault, broken, first_but_bounds, of_new_schema, shape_of};
use logical_plan::{Plan, let_go};
use schema_grammar::TypeKind;
use std::alloc::Global;

/// The greatest bound; the least is its negative.
const GREATEST_BOUND: u64 = 4611686018427387903;

fn is_in_order(dimension: &Dimension) -> bool
    ensures { result ≡ bounds_in_order dimension.now }
{
    dimension.lo <= dimension.hi
}

fn is_bound(number: i64) -> bool
    ensures { result ≡ is_bound number }
{
    number.unsigned_abs() <= GREATEST_BOUND
}

fn is_in_range(dimension: &Dimension) -> bool
    ensures { result ≡ bounds_in_range dimension.now }
{
    is_bound(dimension.lo) && is_bound(dimension.hi)
}

fn are_in_order(dimensions: &[Dimension]) -> bool
    ensures { result ≡ list_all bounds_in_order dimensions.now }
{
    dimensions.iter().all(is_in_order)
}

fn are_in_range(dimensions: &[Dimension]) -> bool
    ensures { result ≡ list_all bounds_in_range dimensions.now }
{
    dimensions.iter().all(is_in_range)
}

/// The cells of a source in the box of bounds, two for each dimension.
fn between_area(
    alloc: Global,
    span: Span,
    source: Plan,
    dimensions: &[Dimension],
    bounds: &[Tree],
) -> Result<Plan, TypeFault>
    requires few { length dimensions.now ≤ 6 }
    ensures { Answers result (by_count span dimensions.now bounds.now (λ area. Ok (between source area))) }
{
    if bounds.len() != 2 * dimensions.len() {
        let_go(source);
        return Err(broken(span, TypeKind::WrongCount));
    }
    Ok(Plan::between(alloc, source, box_of(dimensions, bounds))?)
}

/// The cells of a source in the box of bounds.
fn between_bounds(
    alloc: Global,
    span: Span,
    source: Plan,
    bounds: &[Tree],
) -> Result<Plan, TypeFault>
    requires { length (schema_of source).dimensions ≤ 6 }
    ensures { Answers result (by_count span (schema_of source).dimensions bounds.now (λ area. Ok (between source area))) }
{
    match shape_of(alloc, &source) {
        Ok(schema) => between_area(alloc, span, source, schema.dimensions.as_slice(), bounds),
        Err(Memory) => {
            let_go(source);
            Err(TypeFault::Memory)
        }
    }
}

/// `between` of a source, with the bounds behind it.
pub fn between_call(
    alloc: Global,
    span: Span,
    source: Plan,
    bounds: &[Tree],
) -> Result<Plan, TypeFault>
    requires { length (schema_of source).dimensions ≤ 6 }
    ensures { Answers result (between_call span source bounds.now) }
{
    match first_but_bounds(bounds) {
        Some(other) => {
            let_go(source);
            Err(broken(other, TypeKind::WrongType))
        }
        None => between_bounds(alloc, span, source, bounds),
    }
}

/// A part of these dimensions, where its bounds are in range.
fn in_range(alloc: Global, span: Span, parts: &[Dimension], part: Plan) -> Result<Plan, TypeFault>
    ensures { Answers result (demand (list_all bounds_in_range parts.now) span TypeKind.BoundsRange (of_new_schema span part)) }
{
    if !are_in_range(parts) {
        let_go(part);
        return Err(broken(span, TypeKind::BoundsRange));
    }
    of_new_schema(alloc, span, part)
}

/// A part of these dimensions, where it holds something and its bounds are in range.
fn by_parts(alloc: Global, span: Span, parts: &[Dimension], part: Plan) -> Result<Plan, TypeFault>
    ensures { Answers result (by_parts span parts.now (of_new_schema span part)) }
{
    if !are_in_order(parts) {
        let_go(part);
        return Err(broken(span, TypeKind::EmptyBox));
    }
    in_range(alloc, span, parts, part)
}

/// The part, where it holds something and its bounds are in range.
fn of_parts(alloc: Global, span: Span, part: Plan) -> Result<Plan, TypeFault>
    ensures { Answers result (of_parts span part) }
{
    match shape_of(alloc, &part) {
        Ok(schema) => by_parts(alloc, span, schema.dimensions.as_slice(), part),
        Err(Memory) => {
            let_go(part);
            Err(TypeFault::Memory)
        }
    }
}

/// The part of a source in the box of bounds, two for each dimension.
fn part_area(
    alloc: Global,
    span: Span,
    source: Plan,
    dimensions: &[Dimension],
    bounds: &[Tree],
) -> Result<Plan, TypeFault>
    requires few { length dimensions.now ≤ 6 }
    ensures { Answers result (by_count span dimensions.now bounds.now (λ area. of_parts span (subarray source area))) }
{
    if bounds.len() != 2 * dimensions.len() {
        let_go(source);
        return Err(broken(span, TypeKind::WrongCount));
    }
    let part = Plan::subarray(alloc, source, box_of(dimensions, bounds))?;
    of_parts(alloc, span, part)
}

/// The part of a source in the box of bounds.
fn part_bounds(alloc: Global, span: Span, source: Plan, bounds: &[Tree]) -> Result<Plan, TypeFault>
    requires { length (schema_of source).dimensions ≤ 6 }
    ensures { Answers result (by_count span (schema_of source).dimensions bounds.now (λ area. of_parts span (subarray source area))) }
{
    match shape_of(alloc, &source) {
        Ok(schema) => part_area(alloc, span, source, schema.dimensions.as_slice(), bounds),
        Err(Memory) => {
            let_go(source);
            Err(TypeFault::Memory)
        }
    }
}

/// `subarray` of a source, with the bounds behind it.
pub fn subarray_call(
    alloc: Global,
    span: Span,
    source: Plan,
    bounds: &[Tree],
) -> Result<Plan, TypeFault>
    requires { length (schema_of source).dimensions ≤ 6 }
    ensures { Answers result (subarray_call span source bounds.now) }
{
    match first_but_bounds(bounds) {
        Some(other) => {
            let_go(source);
            Err(broken(other, TypeKind::WrongType))
        }
        None => part_bounds(alloc, span, source, bounds),
    }
}
