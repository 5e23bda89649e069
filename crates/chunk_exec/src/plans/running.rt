//! The array of a plan.
ghost use Rattle.std.specs.Prelude.{◌≡◌, ◌≤◌, ◌++◌, None, IfOk, OnOk, OnErr};
ghost use Rattle.array_geom.specs.Link.{Is};
ghost use Rattle.array_parts.specs.Cores.{HasCells};
ghost use Rattle.array_parts.specs.Placed.{IsSound};
ghost use Rattle.logical_plan.specs.Meaning.{Database, meaning};
ghost use Rattle.logical_plan.specs.PlanSchema.{schema_of};
ghost use Rattle.plan_needs.specs.Wanted.{whole_need};
ghost use Rattle.chunk_source.specs.Source.{AsksFront, Keeps};
ghost use Rattle.chunk_source.specs.Faults.{Answers};
ghost use Rattle.chunk_exec.specs.Computed.{CanCompute, IsComputed, asked_for_plan};

use crate::plans::compute::compute;
use crate::plans::needed::boxes_of;
use afl_outside::Gate;
use array_geom::ChunkedArray;
use chunk_source::{ChunkSource, ExecFault};
use chunk_workers::Crew;
use logical_plan::{Plan, let_go};
use plan_rewrite::rewritten;
use std::alloc::Global;
use std::thread::Threads;

/// The array of a plan as it stands. Of each leaf the chunks are asked for that the plan needs, and no other.
fn run<S: ChunkSource, R: Threads + Sync, G: Gate>(
    rt: &R,
    alloc: Global,
    plan: &Plan,
    source: &mut S,
    workers: u32,
    session: u32,
    gate: &G,
) -> Result<ChunkedArray, ExecFault>
    requires can { CanCompute (S.state source.old) plan.now }
    requires workers { (1 ≤ workers) × (workers ≤ 64) }
    ensures computed { IfOk result (IsComputed 0 (whole_need plan.now) (S.state source.old) (S.state source.new) plan.now) }
    ensures front { let old = S.state source.old in OnErr result (AsksFront (asked_for_plan old plan.now) old (S.state source.new)) }
    ensures kept { Keeps (S.state source.old) (S.state source.new) }
    ensures cause { Answers (S.state source.old) (S.state source.new) result }
    ensures start { S.start source.new ≡ S.start source.old }
{
    let boxes = boxes_of(alloc, plan)?;
    let mut crew = Crew {
        rt,
        workers,
        session,
        gate,
        pieces: 0,
    };
    let mut next = 0;
    compute(&mut crew, alloc, plan, source, &mut next, boxes.as_slice())
}

/// The array of a plan over the arrays of a source. What is computed is a settled plan in its place, which means the same and needs
/// the same. Of each leaf the chunks are asked for that the plan needs, and no other. The caller's thread asks for chunks; at most
/// `workers` threads, the caller's among them, compute on what was read, and each passes the gate before each piece. How many they
/// are changes nothing.
pub fn execute<S: ChunkSource, R: Threads + Sync, G: Gate>(
    rt: &R,
    alloc: Global,
    plan: &Plan,
    source: &mut S,
    workers: u32,
    session: u32,
    gate: &G,
) -> Result<ChunkedArray, ExecFault>
    requires undamaged { (S.state source.old).damaged ≡ None }
    requires can { CanCompute (S.state source.old) plan.now }
    requires workers { (1 ≤ workers) × (workers ≤ 64) }
    ensures schema { IfOk result (λ array. array.schema ≡ schema_of plan.now) }
    ensures sound { IfOk result IsSound }
    ensures cells { IfOk result HasCells }
    ensures means { IfOk result (λ array. (db : Database) → (S.state source.old).tells db → Is array (meaning db plan.now)) }
    ensures asked { OnOk result ((S.state source.new).asked ≡ (S.state source.old).asked ++ asked_for_plan (S.state source.old) plan.now) }
    ensures front { let old = S.state source.old in OnErr result (AsksFront (asked_for_plan old plan.now) old (S.state source.new)) }
    ensures kept { Keeps (S.state source.old) (S.state source.new) }
    ensures cause { Answers (S.state source.old) (S.state source.new) result }
    ensures start { S.start source.new ≡ S.start source.old }
{
    let settled = rewritten(alloc, plan)?;
    let answer = run(rt, alloc, &settled, source, workers, session, gate);
    let_go(settled);
    answer
}
