//! The arrays of plans, operator by operator.
ghost use Rattle.std.specs.Prelude.{◌≡◌, ◌+◌, ◌≤◌, length, drop, IfOk, OnOk, OnErr};
ghost use Rattle.chunk_source.specs.Source.{AsksFront, Keeps};
ghost use Rattle.chunk_source.specs.Faults.{Answers};
ghost use Rattle.logical_plan.specs.Arity.{binary_query, unary_query};
ghost use Rattle.logical_plan.specs.Leaves.{leaves};
ghost use Rattle.chunk_exec.specs.Computed.{CanCompute, IsComputed, asked_in_boxes};

use crate::plans::leaf::given_array;
use crate::plans::results::{binary_result, unary_result};
use afl_outside::Gate;
use array_geom::ChunkedArray;
use cell_values::Bounds;
use chunk_source::{ChunkSource, ExecFault};
use chunk_workers::Crew;
use logical_plan::{BinaryNode, Plan, PlanShape, UnaryNode};
use std::alloc::Global;
use std::thread::Threads;

/// The array of a plan, whose leaves have the next numbers. Each is read for the box of its number.
#[cycle(compute)]
pub(crate) fn compute<S: ChunkSource, R: Threads + Sync, G: Gate>(
    crew: &mut Crew<'_, R, G>,
    alloc: Global,
    plan: &Plan,
    source: &mut S,
    next: &mut u32,
    boxes: &[Bounds],
) -> Result<ChunkedArray, ExecFault>
    requires can { CanCompute (S.state source.old) plan.now }
    requires enough { next.old + length (leaves plan.now) ≤ length boxes.now }
    ensures computed { IfOk result (IsComputed next.old (drop next.old boxes.now) (S.state source.old) (S.state source.new) plan.now) }
    ensures next { OnOk result (next.new ≡ next.old + length (leaves plan.now)) }
    ensures front { let old = S.state source.old in
        OnErr result (AsksFront (asked_in_boxes old next.old (leaves plan.now) (drop next.old boxes.now)) old (S.state source.new)) }
    ensures kept { Keeps (S.state source.old) (S.state source.new) }
    ensures cause { Answers (S.state source.old) (S.state source.new) result }
    ensures start { S.start source.new ≡ S.start source.old }
{
    match plan.shape() {
        PlanShape::Leaf(node) => given_array(alloc, plan, node, source, next, boxes),
        PlanShape::Unary(from, node) => {
            over_one(crew, alloc, plan, from, node, source, next, boxes)
        }
        PlanShape::Binary(left, right, node) => {
            over_two(crew, alloc, plan, left, right, node, source, next, boxes)
        }
    }
}

/// The array of a plan of one source.
#[cycle(compute)]
fn over_one<S: ChunkSource, R: Threads + Sync, G: Gate>(
    crew: &mut Crew<'_, R, G>,
    alloc: Global,
    plan: &Plan,
    from: &Plan,
    node: UnaryNode<'_>,
    source: &mut S,
    next: &mut u32,
    boxes: &[Bounds],
) -> Result<ChunkedArray, ExecFault>
    requires can { CanCompute (S.state source.old) plan.now }
    requires node { plan.now ≡ unary_query node from.now }
    requires enough { next.old + length (leaves plan.now) ≤ length boxes.now }
    ensures computed { IfOk result (IsComputed next.old (drop next.old boxes.now) (S.state source.old) (S.state source.new) plan.now) }
    ensures next { OnOk result (next.new ≡ next.old + length (leaves plan.now)) }
    ensures front { let old = S.state source.old in
        OnErr result (AsksFront (asked_in_boxes old next.old (leaves plan.now) (drop next.old boxes.now)) old (S.state source.new)) }
    ensures kept { Keeps (S.state source.old) (S.state source.new) }
    ensures cause { Answers (S.state source.old) (S.state source.new) result }
    ensures start { S.start source.new ≡ S.start source.old }
{
    let array = compute(crew, alloc, from, source, next, boxes)?;
    Ok(unary_result(crew, alloc, plan, from, node, array)?)
}

/// The array of a plan of two sources.
#[cycle(compute)]
fn over_two<S: ChunkSource, R: Threads + Sync, G: Gate>(
    crew: &mut Crew<'_, R, G>,
    alloc: Global,
    plan: &Plan,
    left: &Plan,
    right: &Plan,
    node: BinaryNode<'_>,
    source: &mut S,
    next: &mut u32,
    boxes: &[Bounds],
) -> Result<ChunkedArray, ExecFault>
    requires can { CanCompute (S.state source.old) plan.now }
    requires node { plan.now ≡ binary_query node left.now right.now }
    requires enough { next.old + length (leaves plan.now) ≤ length boxes.now }
    ensures computed { IfOk result (IsComputed next.old (drop next.old boxes.now) (S.state source.old) (S.state source.new) plan.now) }
    ensures next { OnOk result (next.new ≡ next.old + length (leaves plan.now)) }
    ensures front { let old = S.state source.old in
        OnErr result (AsksFront (asked_in_boxes old next.old (leaves plan.now) (drop next.old boxes.now)) old (S.state source.new)) }
    ensures kept { Keeps (S.state source.old) (S.state source.new) }
    ensures cause { Answers (S.state source.old) (S.state source.new) result }
    ensures start { S.start source.new ≡ S.start source.old }
{
    let a = compute(crew, alloc, left, source, next, boxes)?;
    let b = compute(crew, alloc, right, source, next, boxes)?;
    Ok(binary_result(crew, alloc, plan, left, right, node, a, b)?)
}
