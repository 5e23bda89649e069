//! The names of a change.
ghost use Rattle.std.specs.Prelude.{◌≡◌, ◌||◌};
ghost use Rattle.std.specs.List.{list_any};
ghost use Rattle.std.specs.Str.{bytes_eq};
ghost use Rattle.logical_plan.specs.Leaves.{leaves};
ghost use Rattle.array_store.specs.Fresh.{has_name};

use cell_values::Name;
use logical_plan::{LeafNode, Plan, PlanShape};
use plan_changes::{Change, is_same};

/// Whether a plan reads an array of a name.
#[tactic(auto, using(crate::proofs::FreshLaws::any_both))]
fn reads_name(plan: &Plan, name: &Name) -> bool
    ensures { result ≡ list_any (λ leaf. bytes_eq name.now leaf.name) (leaves plan.now) }
{
    match plan.shape() {
        PlanShape::Leaf(LeafNode::Build(..)) | PlanShape::Leaf(LeafNode::Literal(..)) => false,
        PlanShape::Leaf(LeafNode::Scan(leaf)) => is_same(name, &leaf.name),
        PlanShape::Unary(source, _) => reads_name(source, name),
        PlanShape::Binary(left, right, _) => reads_name(left, name) || reads_name(right, name),
    }
}

/// Whether a plan reads an array of a name, or the name is this one.
fn reads_or_is(plan: &Plan, own: &Name, name: &Name) -> bool
    ensures { result ≡ (list_any (λ leaf. bytes_eq name.now leaf.name) (leaves plan.now) || bytes_eq name.now own.now) }
{
    reads_name(plan, name) || is_same(name, own)
}

/// Whether a change reads an array of a name, or is about it.
pub(crate) fn has_name(change: &Change, name: &Name) -> bool
    ensures { result ≡ has_name change.now name.now }
{
    match change {
        Change::Create { name: own, .. } => is_same(name, own),
        Change::Store {
            name: own,
            plan,
            ..
        } => reads_or_is(plan, own, name),
        Change::Insert {
            name: own,
            plan,
            ..
        } => reads_or_is(plan, own, name),
        Change::Remove { name: own } => is_same(name, own),
        Change::RemoveVersions { name: own, .. } => is_same(name, own),
    }
}
