//! The rows of plans, or their first faults.
ghost use Rattle.std.specs.Prelude.{◌≡◌, ◌≤◌, ◌++◌, IfOk, OnOk, OnErr, None};
ghost use Rattle.array_geom.specs.Link.{Is};
ghost use Rattle.array_parts.specs.Cores.{HasCells};
ghost use Rattle.array_parts.specs.Placed.{IsSound};
ghost use Rattle.chunk_source.specs.Faults.{Answers};
ghost use Rattle.chunk_source.specs.Source.{AsksFront, Keeps};
ghost use Rattle.chunk_exec.specs.Computed.{CanCompute, asked_for_plan};
ghost use Rattle.logical_plan.specs.Meaning.{Database, Meant, meaning};
ghost use Rattle.logical_plan.specs.PlanSchema.{schema_of};
ghost use Rattle.chunk_exec.specs.Found.{HasSchema, IsFound};
ghost use Rattle.chunk_exec.specs.Held.{HoldsCells, rows_held};

use crate::plans::execute;
use crate::rows::rows::faults::first_fault;
use afl_outside::Gate;
use array_geom::ChunkedArray;
use cell_values::{Broken, List, Row, Schema};
use chunk_source::{ChunkSource, ExecFault};
use logical_plan::Plan;
use std::alloc::Global;
use std::thread::Threads;

/// What contracts say that a plan gives: its array's first fault, or else its schema and its rows. No value of it is made.
#[derive(Drop)]
pub enum PlanRows {
    Fault(Broken),
    Rows(Schema, List<Row>),
}

/// What a plan gives, in chunks: its array's first fault, or else its array.
#[derive(Drop)]
pub enum PlanArray {
    Fault(Broken),
    Whole(ChunkedArray),
}

/// What a plan gives over the arrays of a source, in chunks.
pub fn array_of<S: ChunkSource, R: Threads + Sync, G: Gate>(
    rt: &R,
    alloc: Global,
    plan: &Plan,
    source: &mut S,
    workers: u32,
    session: u32,
    gate: &G,
) -> Result<PlanArray, ExecFault>
    requires undamaged { (S.state source.old).damaged ≡ None }
    requires can { CanCompute (S.state source.old) plan.now }
    requires workers { (1 ≤ workers) × (workers ≤ 64) }
    ensures schema { IfOk result (λ found. HasSchema (schema_of plan.now) (rows_held found)) }
    ensures cells { IfOk result HoldsCells }
    ensures found { IfOk result (λ found. (db : Database) → (S.state source.old).tells db → IsFound (meaning db plan.now) (rows_held found)) }
    ensures asked { OnOk result ((S.state source.new).asked ≡ (S.state source.old).asked ++ asked_for_plan (S.state source.old) plan.now) }
    ensures front { let old = S.state source.old in OnErr result (AsksFront (asked_for_plan old plan.now) old (S.state source.new)) }
    ensures kept { Keeps (S.state source.old) (S.state source.new) }
    ensures cause { Answers (S.state source.old) (S.state source.new) result }
    ensures start { S.start source.new ≡ S.start source.old }
{
    match execute(rt, alloc, plan, source, workers, session, gate) {
        Ok(array) => Ok(array_in(array)),
        Err(fault) => Err(fault),
    }
}

/// An array's first fault, or else the array.
fn array_in(array: ChunkedArray) -> PlanArray
    requires sound { IsSound array }
    requires cells { HasCells array }
    ensures schema { HasSchema array.schema (rows_held result) }
    ensures cells { HoldsCells result }
    ensures found { (meant : Meant) → Is array meant → IsFound meant (rows_held result) }
{
    match first_fault(&array) {
        Some(broken) => PlanArray::Fault(broken),
        None => PlanArray::Whole(array),
    }
}
