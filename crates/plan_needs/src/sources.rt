//! What an operator needs of its sources, whose schemas are computed where they decide.
ghost use Rattle.std.specs.Prelude.{◌≡◌, IfOk};
ghost use Rattle.logical_plan.specs.PlanSchema.{schema_of};
ghost use Rattle.logical_plan.specs.Typing.{IsTyped};
ghost use Rattle.plan_needs.specs.Inner.ByArity.{left_sides, right_sides, source_sides};
ghost use Rattle.plan_needs.specs.Needs.{is_scan};
ghost use Rattle.plan_needs.specs.OrderSides.{of_cumulate, of_rank};
ghost use Rattle.plan_needs.specs.ShapeSides.{of_behind, of_front, of_reverse, of_xgrid};
ghost use Rattle.plan_needs.specs.Sides.{of_aggregate, of_left, of_regrid, of_right, of_slice, of_subarray, of_window, whole};

use crate::boxes::{
    are_near, of_aggregate, of_between, of_left, of_regrid, of_right, of_slice, of_subarray,
    of_windows, whole,
};
use crate::lines::{of_cumulate, of_rank};
use crate::shapes::{of_behind, of_front, of_reverse, of_transpose, of_xgrid};
use crate::sides::{Sides, copy_sides};
use cell_values::{Bounds, List, Memory};
use logical_plan::{BinaryNode, Fixed, LeafNode, Pair, Plan, PlanShape, Reach, UnaryNode};
use plan_schemas::schema_of;
use std::alloc::Global;

/// Whether the plan is a scan under filters, applies, projects and betweens alone.
fn is_scan(plan: &Plan) -> bool
    ensures { result ≡ is_scan plan.now }
{
    match plan.shape() {
        PlanShape::Leaf(LeafNode::Scan(_)) => true,
        PlanShape::Unary(source, UnaryNode::Filter(_))
        | PlanShape::Unary(source, UnaryNode::Apply(_))
        | PlanShape::Unary(source, UnaryNode::Project(_))
        | PlanShape::Unary(source, UnaryNode::Between(_)) => is_scan(source),
        PlanShape::Leaf(_) | PlanShape::Unary(_, _) | PlanShape::Binary(_, _, _) => false,
    }
}

#[tactic(auto, using(logical_plan::proofs::SchemaLaws::typed_valid))]
fn of_part(alloc: Global, source: &Plan, area: &Bounds, sides: &Sides) -> Result<Sides, Memory>
    requires { IsTyped source.now }
    ensures { IfOk result (λ r. r.items ≡ of_subarray (schema_of source.now).dimensions area.now sides.now.items) }
{
    Ok(of_subarray(&schema_of(alloc, source)?, area, sides))
}

#[tactic(auto, using(logical_plan::proofs::SchemaLaws::typed_valid))]
fn of_fixed(
    alloc: Global,
    source: &Plan,
    fixed: &List<Fixed>,
    sides: &Sides,
) -> Result<Sides, Memory>
    requires { IsTyped source.now }
    ensures { IfOk result (λ r. r.items ≡ of_slice (schema_of source.now).dimensions fixed.now sides.now.items) }
{
    Ok(of_slice(&schema_of(alloc, source)?, fixed, sides))
}

fn of_crossed_left(alloc: Global, left: &Plan, sides: &Sides) -> Result<Sides, Memory>
    ensures { IfOk result (λ r. r.items ≡ of_left (schema_of left.now).dimensions sides.now.items) }
{
    Ok(of_left(&schema_of(alloc, left)?.dimensions, sides))
}

#[tactic(auto, using(logical_plan::proofs::SchemaLaws::typed_valid))]
fn of_crossed_right(
    alloc: Global,
    left: &Plan,
    right: &Plan,
    pairs: &List<Pair>,
    sides: &Sides,
) -> Result<Sides, Memory>
    requires { IsTyped right.now }
    ensures { IfOk result (λ r. r.items ≡ of_right (schema_of left.now).dimensions (schema_of right.now).dimensions pairs.now sides.now.items) }
{
    let left = schema_of(alloc, left)?;
    let right = schema_of(alloc, right)?;
    Ok(of_right(&left.dimensions, &right, pairs, sides))
}

#[tactic(auto, using(logical_plan::proofs::SchemaLaws::typed_valid))]
fn of_all(alloc: Global, source: &Plan) -> Result<Sides, Memory>
    requires { IsTyped source.now }
    ensures { IfOk result (λ r. r.items ≡ whole (schema_of source.now).dimensions) }
{
    Ok(whole(&schema_of(alloc, source)?))
}

fn of_blocks(
    alloc: Global,
    source: &Plan,
    sizes: &List<u64>,
    sides: &Sides,
) -> Result<Sides, Memory>
    ensures { IfOk result (λ r. r.items ≡ of_regrid (schema_of source.now).dimensions sizes.now sides.now.items) }
{
    Ok(of_regrid(&schema_of(alloc, source)?, sizes, sides))
}

fn of_reach(
    alloc: Global,
    source: &Plan,
    reach: &List<Reach>,
    sides: &Sides,
) -> Result<Sides, Memory>
    ensures { IfOk result (λ r. r.items ≡ of_window (is_scan source.now) (schema_of source.now).dimensions reach.now sides.now.items) }
{
    let schema = schema_of(alloc, source)?;
    if is_scan(source) && are_near(reach.as_slice(), schema.dimensions.as_slice()) {
        Ok(copy_sides(sides))
    } else {
        Ok(of_windows(&schema, reach, sides))
    }
}

#[tactic(auto, using(logical_plan::proofs::SchemaLaws::typed_valid))]
fn of_groups(
    alloc: Global,
    source: &Plan,
    places: &List<u32>,
    sides: &Sides,
) -> Result<Sides, Memory>
    requires { IsTyped source.now }
    ensures { IfOk result (λ r. r.items ≡ of_aggregate (schema_of source.now).dimensions places.now sides.now.items) }
{
    Ok(of_aggregate(&schema_of(alloc, source)?, places, sides))
}

fn of_ranks(
    alloc: Global,
    source: &Plan,
    places: &List<u32>,
    sides: &Sides,
) -> Result<Sides, Memory>
    ensures { IfOk result (λ r. r.items ≡ of_rank (schema_of source.now).dimensions places.now sides.now.items) }
{
    Ok(of_rank(&schema_of(alloc, source)?, places, sides))
}

fn of_line(alloc: Global, source: &Plan, place: u32, sides: &Sides) -> Result<Sides, Memory>
    ensures { IfOk result (λ r. r.items ≡ of_cumulate (schema_of source.now).dimensions place sides.now.items) }
{
    Ok(of_cumulate(&schema_of(alloc, source)?, place, sides))
}

fn of_opposites(alloc: Global, source: &Plan, sides: &Sides) -> Result<Sides, Memory>
    ensures { IfOk result (λ r. r.items ≡ of_reverse (schema_of source.now).dimensions sides.now.items) }
{
    Ok(of_reverse(&schema_of(alloc, source)?, sides))
}

fn of_sources(
    alloc: Global,
    source: &Plan,
    sizes: &List<u64>,
    sides: &Sides,
) -> Result<Sides, Memory>
    ensures { IfOk result (λ r. r.items ≡ of_xgrid (schema_of source.now).dimensions sizes.now sides.now.items) }
{
    Ok(of_xgrid(&schema_of(alloc, source)?, sizes, sides))
}

fn of_left_part(alloc: Global, left: &Plan, sides: &Sides) -> Result<Sides, Memory>
    ensures { IfOk result (λ r. r.items ≡ of_front (schema_of left.now).dimensions sides.now.items) }
{
    Ok(of_front(&schema_of(alloc, left)?.dimensions, sides))
}

fn of_right_part(alloc: Global, left: &Plan, right: &Plan, sides: &Sides) -> Result<Sides, Memory>
    ensures { IfOk result (λ r. r.items ≡ of_behind (schema_of left.now).dimensions (schema_of right.now).dimensions sides.now.items) }
{
    let left = schema_of(alloc, left)?;
    let right = schema_of(alloc, right)?;
    Ok(of_behind(&left.dimensions, &right.dimensions, sides))
}

/// The sides of its source that an operator needs.
pub(crate) fn of_source(
    alloc: Global,
    source: &Plan,
    node: UnaryNode<'_>,
    sides: &Sides,
) -> Result<Sides, Memory>
    requires { IsTyped source.now }
    ensures { IfOk result (λ r. r.items ≡ source_sides node.entry source.now sides.now.items) }
{
    match node {
        UnaryNode::Filter(_) | UnaryNode::Apply(_) | UnaryNode::Project(_) => Ok(copy_sides(sides)),
        UnaryNode::Between(area) => Ok(of_between(area, sides)),
        UnaryNode::Subarray(area) => of_part(alloc, source, area, sides),
        UnaryNode::Slice(fixed) => of_fixed(alloc, source, fixed, sides),
        UnaryNode::Redimension(_, _) => of_all(alloc, source),
        UnaryNode::Sort(_, _) | UnaryNode::Unpack(_) => of_all(alloc, source),
        UnaryNode::Regrid(sizes, _) => of_blocks(alloc, source, sizes, sides),
        UnaryNode::Window(reach, _) => of_reach(alloc, source, reach, sides),
        UnaryNode::Aggregate(_, places) => of_groups(alloc, source, places, sides),
        UnaryNode::Rank(_, places) => of_ranks(alloc, source, places, sides),
        UnaryNode::Cumulate(_, place) => of_line(alloc, source, place, sides),
        UnaryNode::Transpose => Ok(of_transpose(sides)),
        UnaryNode::Reverse => of_opposites(alloc, source, sides),
        UnaryNode::Xgrid(sizes) => of_sources(alloc, source, sizes, sides),
    }
}

/// The sides of its left source that an operator over two needs.
pub(crate) fn of_left_source(
    alloc: Global,
    left: &Plan,
    node: BinaryNode<'_>,
    sides: &Sides,
) -> Result<Sides, Memory>
    ensures { IfOk result (λ r. r.items ≡ left_sides node.entry left.now sides.now.items) }
{
    match node {
        BinaryNode::Join(_) | BinaryNode::Merge => Ok(copy_sides(sides)),
        BinaryNode::CrossJoin(_, _) => of_crossed_left(alloc, left, sides),
        BinaryNode::Concat => of_left_part(alloc, left, sides),
    }
}

/// The sides of its right source that an operator over two needs.
pub(crate) fn of_right_source(
    alloc: Global,
    left: &Plan,
    right: &Plan,
    node: BinaryNode<'_>,
    sides: &Sides,
) -> Result<Sides, Memory>
    requires { IsTyped right.now }
    ensures { IfOk result (λ r. r.items ≡ right_sides node.entry left.now right.now sides.now.items) }
{
    match node {
        BinaryNode::Join(_) | BinaryNode::Merge => Ok(copy_sides(sides)),
        BinaryNode::CrossJoin(pairs, _) => of_crossed_right(alloc, left, right, pairs, sides),
        BinaryNode::Concat => of_right_part(alloc, left, right, sides),
    }
}
