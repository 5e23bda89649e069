//! What a plan needs of its leaves.
ghost use Rattle.std.specs.Prelude.{◌≡◌, ◌++◌, IfOk, OnOk};
ghost use Rattle.logical_plan.specs.Typing.{IsTyped};
ghost use Rattle.plan_needs.specs.Inner.ByArity.{leaf_needs};
ghost use Rattle.plan_needs.specs.Needs.{need, needs};

use crate::sides::{Sides, box_of, sides_of};
use crate::sources::{of_left_source, of_right_source, of_source};
use cell_values::{Bounds, List, Memory};
use logical_plan::{LeafNode, Plan, PlanShape};
use std::alloc::Global;

/// Adds the box of a stored array.
fn push_leaf(found: &mut List<Bounds>, node: LeafNode<'_>, sides: &Sides) -> Result<(), Memory>
    ensures { OnOk result (found.new ≡ found.old ++ leaf_needs node.entry sides.now.items) }
{
    match node {
        LeafNode::Build(_, _) | LeafNode::Literal(_, _) => Ok(()),
        LeafNode::Scan(_) => found.push(box_of(sides)),
    }
}

/// Adds the box of each leaf, from left to right.
fn push_needs(
    alloc: Global,
    found: &mut List<Bounds>,
    plan: &Plan,
    sides: &Sides,
) -> Result<(), Memory>
    requires { IsTyped plan.now }
    ensures { OnOk result (found.new ≡ found.old ++ needs plan.now sides.now.items) }
{
    match plan.shape() {
        PlanShape::Leaf(node) => push_leaf(found, node, sides),
        PlanShape::Unary(source, node) => {
            let needed = of_source(alloc, source, node, sides)?;
            push_needs(alloc, found, source, &needed)
        }
        PlanShape::Binary(left, right, node) => {
            let first = of_left_source(alloc, left, node, sides)?;
            push_needs(alloc, found, left, &first)?;
            let second = of_right_source(alloc, left, right, node, sides)?;
            push_needs(alloc, found, right, &second)
        }
    }
}

/// For each leaf of a typed plan, from left to right, the box of it that the plan needs for a box of its result.
pub fn need(alloc: Global, plan: &Plan, area: &Bounds) -> Result<List<Bounds>, Memory>
    requires { IsTyped plan.now }
    ensures { IfOk result (λ boxes. boxes ≡ need plan.now area.now) }
{
    let mut boxes = List::new(alloc);
    push_needs(alloc, &mut boxes, plan, &sides_of(area))?;
    Ok(boxes)
}
