//! The stored arrays that a plan reads.
ghost use Rattle.std.specs.Prelude.{◌≡◌, ◌++◌, IfOk, OnOk};
ghost use Rattle.logical_plan.specs.Leaves.{leaves};

use crate::{Leaf, LeafNode, Plan, PlanShape};
use cell_values::{List, Memory};
use std::alloc::Global;

fn push_leaves(found: &mut List<Leaf>, plan: &Plan) -> Result<(), Memory>
    ensures { OnOk result (found.new ≡ found.old ++ leaves plan.now) }
{
    match plan.shape() {
        PlanShape::Leaf(LeafNode::Build(..)) | PlanShape::Leaf(LeafNode::Literal(..)) => Ok(()),
        PlanShape::Leaf(LeafNode::Scan(leaf)) => found.push(leaf.copy()?),
        PlanShape::Unary(source, _) => push_leaves(found, source),
        PlanShape::Binary(left, right, _) => {
            push_leaves(found, left)?;
            push_leaves(found, right)
        }
    }
}

/// The leaves of a plan from left to right, each as often as it is read.
pub fn reads(alloc: Global, plan: &Plan) -> Result<List<Leaf>, Memory>
    ensures { IfOk result (λ found. found ≡ leaves plan.now) }
{
    let mut found = List::new(alloc);
    push_leaves(&mut found, plan)?;
    Ok(found)
}
