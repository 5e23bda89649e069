//! A filter over the array, executed over a source.
ghost use Rattle.std.specs.Prelude.{◌≡◌, None, IfOk};
ghost use Rattle.chunk_exec.specs.Computed.{CanCompute};
ghost use Rattle.chunk_source.specs.Source.{Reads};
ghost use Rattle.test_sources.specs.Example.{above_five, leaf};

use crate::example::example_leaf;
use crate::layout::Layout;
use crate::show::{push_cause, push_cells, push_chunks, push_faults};
use afl_outside::OpenGate;
use cell_values::{CompareOp, Datum, Memory};
use chunk_exec::execute;
use chunk_source::ChunkSource;
use expr_nulls::TypedExpr;
use logical_plan::Plan;
use std::alloc::Global;
use std::thread::Threads;
use test_kit::Transcript;

/// `filter(a, v>5)`
pub(crate) fn above_five(alloc: Global, layout: Layout) -> Result<Plan, Memory>
    ensures { IfOk result (λ plan. plan ≡ above_five layout) }
{
    let leaf = example_leaf(alloc, layout)?;
    let five = TypedExpr::lit(Datum::Int(5));
    let test = TypedExpr::compare(alloc, CompareOp::More, TypedExpr::attr(0), five)?;
    Plan::filter(alloc, Plan::scan(leaf), test)
}

/// Executes a plan, and adds its chunks or why there are none, and how often the source has failed.
pub(crate) fn push_plan<S: ChunkSource, R: Threads + Sync>(
    rt: &R,
    out: &mut Transcript,
    source: &mut S,
    plan: &Plan,
)
    requires undamaged { (S.state source.old).damaged ≡ None }
    requires can { CanCompute (S.state source.old) plan.now }
{
    match execute(rt, out.alloc(), plan, source, 1, 0, &OpenGate) {
        Ok(array) => {
            push_chunks(out, array.chunks.as_slice());
            push_cells(out, &array);
            drop(array);
        }
        Err(cause) => push_cause(out, cause),
    }
    push_faults(out, source);
}

/// Executes the filter over a source that has the array.
#[tactic(auto, using(crate::proofs::Executed::can_compute))]
pub(crate) fn push_filter<S: ChunkSource, R: Threads + Sync>(
    rt: &R,
    out: &mut Transcript,
    source: &mut S,
    layout: Layout,
)
    requires undamaged { (S.state source.old).damaged ≡ None }
    requires reads { Reads (S.state source.old) (leaf layout) }
{
    match above_five(out.alloc(), layout) {
        Ok(plan) => {
            push_plan(rt, out, source, &plan);
            drop(plan);
        }
        Err(Memory) => out.note_short(),
    }
}
