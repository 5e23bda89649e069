//! Plans rewritten: boxes go down, and nothing is computed that is dropped at once.
ghost use Rattle.std.specs.Prelude.{◌≡◌, true, None, length, IfOk};
ghost use Rattle.std.specs.Option.{option_copied};
ghost use Rattle.logical_plan.specs.Arity.{binary_query, unary_query};
ghost use Rattle.logical_plan.specs.PlanSchema.{schema_of};
ghost use Rattle.logical_plan.specs.Typing.{IsTyped};
ghost use Rattle.logical_plan.specs.Query.{Query, applied, between, filtered, projected};
ghost use Rattle.plan_rewrite.specs.Inner.Pending.{pending, shown};
ghost use Rattle.plan_rewrite.specs.Inner.Settling.{applied_for, keeps_above, settle};
ghost use Rattle.plan_rewrite.specs.Same.{IsRewritten};

use crate::nodes::{apply_over, enclosed, filter_over, met};
use crate::places::{names_none, picked};
use cell_values::{Bounds, List, Memory, Schema};
use expr_nulls::TypedExpr;
use logical_plan::{Applied, BinaryNode, Plan, PlanShape, UnaryNode, let_go};
use plan_schemas::schema_of;
use std::alloc::Global;

/// How many attributes an array of a schema has. More than a `u32` counts are as good as no memory.
fn count_of(schema: &Schema) -> Result<u32, Memory>
    ensures { IfOk result (λ count. count ≡ length schema.now.attributes) }
{
    let count = schema.attributes.len();
    if count <= u32::MAX as usize {
        Ok(count as u32)
    } else {
        Err(Memory)
    }
}

fn count_attributes(alloc: Global, plan: &Plan) -> Result<u32, Memory>
    ensures { IfOk result (λ count. count ≡ length (schema_of plan.now).attributes) }
{
    count_of(&schema_of(alloc, plan)?)
}

/// A plan that was made, with a box and a project on it.
fn enclose_made(
    alloc: Global,
    made: Result<Plan, Memory>,
    area: Option<&Bounds>,
    places: Option<&List<u32>>,
) -> Result<Plan, Memory>
    ensures { (q : Query) → IfOk made (λ p. p ≡ q) → IfOk result (λ p. p ≡ pending (option_copied area.entry) (option_copied places.entry) q) }
{
    match made {
        Ok(plan) => enclosed(alloc, plan, area, places),
        Err(Memory) => Err(Memory),
    }
}

/// A filter over a source that was settled, with a project on it.
fn filter_settled(
    alloc: Global,
    settled: Result<Plan, Memory>,
    test: &TypedExpr,
    places: Option<&List<u32>>,
) -> Result<Plan, Memory>
    ensures { (q : Query) → IfOk settled (λ p. p ≡ q) → IfOk result (λ p. p ≡ shown (option_copied places.entry) (filtered q test.now)) }
{
    match settled {
        Ok(source) => filter_over(alloc, source, test, places),
        Err(Memory) => Err(Memory),
    }
}

/// An apply over a source that was settled, with what a project on it leaves of it.
fn apply_settled(
    alloc: Global,
    settled: Result<Plan, Memory>,
    values: &List<Applied>,
    first: u32,
    places: Option<&List<u32>>,
) -> Result<Plan, Memory>
    ensures { (q : Query) → IfOk settled (λ p. p ≡ q) → IfOk result (λ p. p ≡ applied_for first values.now (option_copied places.entry) q) }
{
    match settled {
        Ok(source) => apply_over(alloc, source, values, first, places),
        Err(Memory) => Err(Memory),
    }
}

/// An operator over a source that was settled.
fn one_settled(
    alloc: Global,
    node: UnaryNode<'_>,
    settled: Result<Plan, Memory>,
) -> Result<Plan, Memory>
    ensures { (q : Query) → IfOk settled (λ p. p ≡ q) → IfOk result (λ p. p ≡ unary_query node.entry q) }
{
    match settled {
        Ok(source) => node.over(alloc, source),
        Err(Memory) => Err(Memory),
    }
}

/// An operator over two sources that were settled.
fn two_settled(
    alloc: Global,
    node: BinaryNode<'_>,
    left: Result<Plan, Memory>,
    right: Result<Plan, Memory>,
) -> Result<Plan, Memory>
    ensures { (a b : Query) → IfOk left (λ p. p ≡ a) → IfOk right (λ p. p ≡ b) → IfOk result (λ p. p ≡ binary_query node.entry a b) }
{
    match (left, right) {
        (Ok(left), Ok(right)) => node.over(alloc, left, right),
        (Ok(settled), Err(Memory)) | (Err(Memory), Ok(settled)) => {
            let_go(settled);
            Err(Memory)
        }
        (Err(Memory), Err(Memory)) => Err(Memory),
    }
}

/// A plan with a box and a project that are to be put on it, settled.
#[cycle(settle)]
fn settle(
    alloc: Global,
    plan: &Plan,
    area: Option<&Bounds>,
    places: Option<&List<u32>>,
) -> Result<Plan, Memory>
    ensures { IfOk result (λ p. p ≡ settle (option_copied area.entry) (option_copied places.entry) plan.now) }
{
    match plan.shape() {
        PlanShape::Leaf(_) => enclose_made(alloc, plan.copy(), area, places),
        PlanShape::Unary(source, node) => settle_one(alloc, source, node, area, places),
        PlanShape::Binary(left, right, node) => {
            settle_two(alloc, left, right, node, area, places)
        }
    }
}

/// An operator over one source, with a box and a project that are to be put on it.
#[cycle(settle)]
fn settle_one(
    alloc: Global,
    source: &Plan,
    node: UnaryNode<'_>,
    area: Option<&Bounds>,
    places: Option<&List<u32>>,
) -> Result<Plan, Memory>
    ensures { IfOk result (λ p. p ≡ settle (option_copied area.entry) (option_copied places.entry) (unary_query node.entry source.now)) }
{
    match node {
        UnaryNode::Filter(test) => settle_filter(alloc, source, test, area, places),
        UnaryNode::Apply(values) => settle_apply(alloc, source, values, area, places),
        UnaryNode::Project(own) => settle_project(alloc, source, own, area, places),
        UnaryNode::Between(own) => settle_between(alloc, source, own, area, places),
        UnaryNode::Subarray(_)
        | UnaryNode::Slice(_)
        | UnaryNode::Redimension(..)
        | UnaryNode::Regrid(..)
        | UnaryNode::Window(..)
        | UnaryNode::Aggregate(..)
        | UnaryNode::Sort(..)
        | UnaryNode::Rank(..)
        | UnaryNode::Cumulate(..)
        | UnaryNode::Transpose
        | UnaryNode::Reverse
        | UnaryNode::Unpack(_)
        | UnaryNode::Xgrid(_) => settle_under(alloc, source, node, area, places),
    }
}

/// A box goes below a filter.
#[cycle(settle)]
fn settle_filter(
    alloc: Global,
    source: &Plan,
    test: &TypedExpr,
    area: Option<&Bounds>,
    places: Option<&List<u32>>,
) -> Result<Plan, Memory>
    ensures { IfOk result (λ p. p ≡ settle (option_copied area.entry) (option_copied places.entry) (filtered source.now test.now)) }
{
    filter_settled(alloc, settle(alloc, source, area, None), test, places)
}

/// A box goes below an apply, and so does a project that names none of its attributes; nothing is then left of it.
#[cycle(settle)]
fn settle_apply(
    alloc: Global,
    source: &Plan,
    values: &List<Applied>,
    area: Option<&Bounds>,
    places: Option<&List<u32>>,
) -> Result<Plan, Memory>
    ensures { IfOk result (λ p. p ≡ settle (option_copied area.entry) (option_copied places.entry) (applied source.now values.now)) }
{
    match count_attributes(alloc, source) {
        Ok(first) => {
            if names_none(first, places) {
                return settle(alloc, source, area, places);
            }
            apply_settled(
                alloc,
                settle(alloc, source, area, None),
                values,
                first,
                places,
            )
        }
        Err(Memory) => Err(Memory),
    }
}

#[cycle(settle)]
fn settle_project(
    alloc: Global,
    source: &Plan,
    own: &List<u32>,
    area: Option<&Bounds>,
    places: Option<&List<u32>>,
) -> Result<Plan, Memory>
    ensures { IfOk result (λ p. p ≡ settle (option_copied area.entry) (option_copied places.entry) (projected source.now own.now)) }
{
    match picked(places, own) {
        Ok(all) => {
            let settled = settle(alloc, source, area, Some(&all));
            drop(all);
            settled
        }
        Err(Memory) => Err(Memory),
    }
}

#[cycle(settle)]
fn settle_between(
    alloc: Global,
    source: &Plan,
    own: &Bounds,
    area: Option<&Bounds>,
    places: Option<&List<u32>>,
) -> Result<Plan, Memory>
    ensures { IfOk result (λ p. p ≡ settle (option_copied area.entry) (option_copied places.entry) (between source.now own.now)) }
{
    let both = met(area, own);
    settle(alloc, source, Some(&both), places)
}

/// A box and a project stay on an operator below which neither goes.
#[cycle(settle)]
fn settle_under(
    alloc: Global,
    source: &Plan,
    node: UnaryNode<'_>,
    area: Option<&Bounds>,
    places: Option<&List<u32>>,
) -> Result<Plan, Memory>
    requires { keeps_above node ≡ true }
    ensures { IfOk result (λ p. p ≡ settle (option_copied area.entry) (option_copied places.entry) (unary_query node.entry source.now)) }
{
    let settled = settle(alloc, source, None, None);
    enclose_made(alloc, one_settled(alloc, node, settled), area, places)
}

/// A box and a project stay on an operator over two sources.
#[cycle(settle)]
fn settle_two(
    alloc: Global,
    left: &Plan,
    right: &Plan,
    node: BinaryNode<'_>,
    area: Option<&Bounds>,
    places: Option<&List<u32>>,
) -> Result<Plan, Memory>
    ensures { let whole = binary_query node.entry left.now right.now in
        IfOk result (λ p. p ≡ settle (option_copied area.entry) (option_copied places.entry) whole) }
{
    let left = settle(alloc, left, None, None);
    let right = settle(alloc, right, None, None);
    enclose_made(alloc, two_settled(alloc, node, left, right), area, places)
}

/// A settled plan in place of a typed one: of the same leaves in the same order and the same wanted chunks, and of the same
/// meaning over every database whose leaves are arrays, faults included.
pub fn rewritten(alloc: Global, plan: &Plan) -> Result<Plan, Memory>
    requires { IsTyped plan.now }
    ensures { IfOk result (IsRewritten plan.now) }
{
    settle(alloc, plan, None, None)
}

/// The same of an owned plan, which is let go.
pub fn rewrite(alloc: Global, plan: Plan) -> Result<Plan, Memory>
    requires { IsTyped plan }
    ensures { IfOk result (IsRewritten plan) }
{
    let settled = rewritten(alloc, &plan);
    let_go(plan);
    settled
}
