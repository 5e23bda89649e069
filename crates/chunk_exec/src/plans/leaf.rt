//! The arrays of plans without sources: given in the plan, or stored.
ghost use Rattle.std.specs.Prelude.{◌≡◌, ◌+◌, ◌<◌, ◌≤◌, length, drop, IfOk, OnOk, OnErr};
ghost use Rattle.cell_values.specs.Schemas.{IsValid};
ghost use Rattle.chunk_source.specs.Source.{AsksFront, Keeps, Reads};
ghost use Rattle.chunk_source.specs.Faults.{Answers};
ghost use Rattle.logical_plan.specs.Arity.{leaf_query};
ghost use Rattle.logical_plan.specs.Leaves.{leaves};
ghost use Rattle.logical_plan.specs.Query.{scanned};
ghost use Rattle.chunk_exec.specs.Computed.{CanCompute, IsComputed, asked_in_boxes};

use crate::plans::given::{build, literal};
use array_geom::ChunkedArray;
use cell_values::Bounds;
use chunk_source::{ChunkSource, ExecFault, read_part};
use logical_plan::{Leaf, LeafNode, Plan};
use std::alloc::Global;

/// The array of the leaf that has the next number, read for its box. More leaves than a `u32` counts are as good as no memory.
fn next_leaf<S: ChunkSource>(
    alloc: Global,
    source: &mut S,
    next: &mut u32,
    leaf: &Leaf,
    boxes: &[Bounds],
) -> Result<ChunkedArray, ExecFault>
    requires reads { Reads (S.state source.old) leaf.now }
    requires valid { IsValid leaf.now.schema }
    requires enough { next.old < length boxes.now }
    ensures computed { IfOk result (IsComputed next.old (drop next.old boxes.now) (S.state source.old) (S.state source.new) (scanned leaf.now)) }
    ensures next { OnOk result (next.new ≡ next.old + 1) }
    ensures front { let old = S.state source.old in
        OnErr result (AsksFront (asked_in_boxes old next.old (leaves (scanned leaf.now)) (drop next.old boxes.now)) old (S.state source.new)) }
    ensures kept { Keeps (S.state source.old) (S.state source.new) }
    ensures cause { Answers (S.state source.old) (S.state source.new) result }
    ensures start { S.start source.new ≡ S.start source.old }
{
    let number = *next;
    match number.checked_add(1) {
        Some(after) => {
            *next = after;
            read_part(alloc, source, number, leaf, &boxes[number as usize])
        }
        None => Err(ExecFault::Memory),
    }
}

/// The array of a plan that works on no other.
#[tactic(auto, using(crate::proofs::ComputedLaws::scan_front, crate::proofs::ComputedLaws::front_none))]
pub(crate) fn given_array<S: ChunkSource>(
    alloc: Global,
    plan: &Plan,
    node: LeafNode<'_>,
    source: &mut S,
    next: &mut u32,
    boxes: &[Bounds],
) -> Result<ChunkedArray, ExecFault>
    requires can { CanCompute (S.state source.old) plan.now }
    requires node { plan.now ≡ leaf_query node }
    requires enough { next.old + length (leaves plan.now) ≤ length boxes.now }
    ensures computed { IfOk result (IsComputed next.old (drop next.old boxes.now) (S.state source.old) (S.state source.new) plan.now) }
    ensures next { OnOk result (next.new ≡ next.old + length (leaves plan.now)) }
    ensures front { let old = S.state source.old in
        OnErr result (AsksFront (asked_in_boxes old next.old (leaves plan.now) (drop next.old boxes.now)) old (S.state source.new)) }
    ensures kept { Keeps (S.state source.old) (S.state source.new) }
    ensures cause { Answers (S.state source.old) (S.state source.new) result }
    ensures start { S.start source.new ≡ S.start source.old }
{
    match node {
        LeafNode::Build(schema, value) => Ok(build(alloc, schema, value)?),
        LeafNode::Literal(schema, rows) => Ok(literal(schema, rows.as_slice())?),
        LeafNode::Scan(leaf) => next_leaf(alloc, source, next, leaf, boxes),
    }
}
