//! Replies to queries.
ghost use Rattle.std.specs.Prelude.{◌≡◌, ◌≤◌, ◌++◌, None, IfOk, OnOk, OnErr};
ghost use Rattle.cell_values.specs.declared.schema.Schema.{Schema};
ghost use Rattle.array_parts.specs.Cores.{HaveCells, cores_of};
ghost use Rattle.logical_plan.specs.Meaning.{Database, Meant, meaning};
ghost use Rattle.logical_plan.specs.PlanSchema.{schema_of};
ghost use Rattle.chunk_source.specs.Faults.{Answers};
ghost use Rattle.chunk_source.specs.Source.{AsksFront, Keeps};
ghost use Rattle.chunk_exec.specs.Computed.{CanCompute, asked_for_plan};
ghost use Rattle.chunk_exec.specs.Found.{HasSchema, IsFound};
ghost use Rattle.chunk_exec.specs.Held.{HoldsCells, rows_held};
ghost use Rattle.result_print.specs.declared.refusal.Refusal.TheVariants.{Cell};
ghost use Rattle.statement_replies.specs.Kinds.{IsRowsOver, IsTextOrRefusal};
ghost use Rattle.statement_replies.specs.Printed.{printed};
ghost use Rattle.statement_replies.specs.Reply.{meant_reply, plan_reply};

use crate::replies::replies::{Reply, or_fault, refuse};
use crate::replies::style::Style;
use crate::replies::texts::{text_of, with_lines};
use crate::replies::traces::lines_wanted;
use afl_outside::Gate;
use array_geom::ChunkedArray;
use cell_values::{Broken, Bytes, Memory, copy_coord};
use changed_chunks::let_go_array;
use chunk_exec::{PlanArray, array_of};
use chunk_source::{ChunkSource, ExecFault};
use logical_plan::Plan;
use result_print::Refusal;
use std::alloc::Global;
use std::thread::Threads;

/// The reply to a query's plan, over the arrays of a source that has the versions which it reads: its array's first fault, or else
/// its array's text in this style, and behind it a line for each leaf where the style wants them.
pub fn answer_query<S: ChunkSource, R: Threads + Sync, G: Gate>(
    rt: &R,
    alloc: Global,
    plan: &Plan,
    source: &mut S,
    style: Style,
    workers: u32,
    session: u32,
    gate: &G,
) -> Result<Reply, ExecFault>
    requires undamaged { (S.state source.old).damaged ≡ None }
    requires can { CanCompute (S.state source.old) plan.now }
    requires workers { (1 ≤ workers) × (workers ≤ 64) }
    ensures kind { IfOk result (IsRowsOver (S.state source.old) style plan.now) }
    ensures told { IfOk result (λ reply. (db : Database) → (S.state source.old).tells db → reply ≡ plan_reply style db plan.now) }
    ensures asked { OnOk result ((S.state source.new).asked ≡ (S.state source.old).asked ++ asked_for_plan (S.state source.old) plan.now) }
    ensures front { let old = S.state source.old in OnErr result (AsksFront (asked_for_plan old plan.now) old (S.state source.new)) }
    ensures kept { Keeps (S.state source.old) (S.state source.new) }
    ensures cause { Answers (S.state source.old) (S.state source.new) result }
    ensures start { S.start source.new ≡ S.start source.old }
{
    match array_of(rt, alloc, plan, source, workers, session, gate) {
        Ok(found) => {
            let answer = reply_with_lines(alloc, style, plan, source, &found);
            let_go_array(found);
            answer
        }
        Err(fault) => Err(fault),
    }
}

/// The reply that tells what a plan gives, and what it reads where the style wants that.
fn reply_with_lines<S: ChunkSource>(
    alloc: Global,
    style: Style,
    plan: &Plan,
    source: &mut S,
    found: &PlanArray,
) -> Result<Reply, ExecFault>
    requires can { CanCompute (S.state source.old) plan.now }
    requires cells { HoldsCells found.now }
    ensures kind { HasSchema (schema_of plan.now) (rows_held found.now) → IfOk result (IsRowsOver (S.state source.old) style plan.now) }
    ensures told { IfOk result (λ reply. (db : Database) → (S.state source.old).tells db → IsFound (meaning db plan.now) (rows_held found.now)
        → reply ≡ plan_reply style db plan.now) }
    ensures asked { (S.state source.new).asked ≡ (S.state source.old).asked }
    ensures kept { Keeps (S.state source.old) (S.state source.new) }
    ensures cause { Answers (S.state source.old) (S.state source.new) result }
    ensures start { S.start source.new ≡ S.start source.old }
{
    let lines = lines_wanted(alloc, style, plan, source)?;
    or_fault(reply_of(alloc, style, &lines, found))
}

/// The text of an array, and these lines behind it.
fn text_with(
    alloc: Global,
    style: Style,
    lines: &Bytes,
    array: &ChunkedArray,
) -> Result<Bytes, Memory>
    requires { HaveCells array.now.schema array.now.margins.items array.now.chunks }
    ensures { IfOk result (λ text. text ≡ printed style array.now.schema (cores_of array.now) ++ lines.now) }
{
    with_lines(text_of(alloc, style, array), lines)
}

/// Why an array that is broken is refused.
fn cell_refusal(broken: &Broken) -> Refusal
    ensures { result ≡ Cell broken.now.at broken.now.kind }
{
    Refusal::Cell {
        at: copy_coord(&broken.at),
        kind: broken.kind,
    }
}

/// The reply that tells what a plan gives, with these lines behind a text.
#[tactic(auto, using(crate::proofs::PlanReplies::fault_reply, crate::proofs::PlanReplies::rows_reply))]
fn reply_of(alloc: Global, style: Style, lines: &Bytes, found: &PlanArray) -> Result<Reply, Memory>
    requires { HoldsCells found.now }
    ensures kind { (schema : Schema) → HasSchema schema (rows_held found.now) → IfOk result (IsTextOrRefusal style lines.now schema) }
    ensures told { (meant : Meant) → IsFound meant (rows_held found.now) → IfOk result (λ reply. reply ≡ meant_reply style lines.now meant) }
{
    match found {
        PlanArray::Fault(broken) => refuse(alloc, cell_refusal(broken)),
        PlanArray::Whole(array) => Ok(Reply {
            text: text_with(alloc, style, lines, array)?,
            refusal: None,
        }),
    }
}
