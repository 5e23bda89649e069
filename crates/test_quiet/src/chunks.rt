//! The chunks that come with a change.
ghost use Rattle.std.specs.Prelude.{◌≡◌, [], IfOk, IfSome, IsTrue};
ghost use Rattle.logical_plan.specs.Leaves.{leaves};
ghost use Rattle.plan_changes.specs.Stored.{AreStored};
ghost use Rattle.plan_changes.specs.Typed.{IsTypedFor};
ghost use Rattle.commit_pages.specs.Changes.{AreValid, ComesWith};
ghost use Rattle.test_quiet.specs.Chunks.{CanBeMade, HasNoVersion};

use crate::answers::Answer;
use afl_outside::OpenGate;
use array_geom::Changed;
use cell_values::{Broken, List, Memory, Name, Schema};
use changed_chunks::{Asking, changed};
use chunk_source::{ExecFault, SureChunks};
use logical_plan::{Leaf, Names, Plan, reads};
use plan_changes::Change;
use result_print::Refusal;
use std::alloc::Global;
use std::thread::Threads;

/// Whether a plan reads no stored array.
fn reads_nothing(alloc: Global, plan: &Plan) -> bool
    ensures { IsTrue result → leaves plan.now ≡ [] }
{
    match reads(alloc, plan) {
        Ok(found) => found.is_empty(),
        Err(Memory) => false,
    }
}

/// An array without versions.
fn no_version(name: &Name, schema: &Schema) -> Result<Leaf, Memory>
    ensures { IfOk result (HasNoVersion schema.now) }
{
    Ok(Leaf {
        name: name.copy()?,
        version: 0,
        schema: schema.copy()?,
    })
}

/// The chunks of a change over no arrays.
fn chunks_over_none<R: Threads + Sync>(
    rt: &R,
    alloc: Global,
    change: &Change,
    target: &Leaf,
) -> Result<Option<Changed>, Answer>
    requires { CanBeMade change.now target.now }
    ensures comes { IfOk result (ComesWith change.now) }
    ensures valid { IfOk result (λ some. IfSome some AreValid) }
{
    let mut source = SureChunks::new(List::new(alloc));
    let mut asking = Asking {
        asked: 0,
        stored: 0,
    };
    match changed(
        rt,
        alloc,
        change,
        target,
        &mut source,
        &mut asking,
        1,
        0,
        &OpenGate,
    ) {
        Ok(Ok(changed)) => Ok(Some(changed)),
        Ok(Err(broken)) => {
            let Broken { at, kind } = broken;
            Err(Answer::Refused(Refusal::Cell { at, kind }))
        }
        Err(ExecFault::Memory) => Err(Answer::Memory),
        Err(ExecFault::Source | ExecFault::Damaged { .. }) => Err(Answer::Disk),
    }
}

/// The chunks of a change that reads nothing.
fn chunks_made<R: Threads + Sync>(
    rt: &R,
    alloc: Global,
    change: &Change,
    name: &Name,
    schema: &Schema,
) -> Result<Option<Changed>, Answer>
    requires { (target : Leaf) → HasNoVersion schema.now target → CanBeMade change.now target }
    ensures comes { IfOk result (ComesWith change.now) }
    ensures valid { IfOk result (λ some. IfSome some AreValid) }
{
    match no_version(name, schema) {
        Ok(target) => chunks_over_none(rt, alloc, change, &target),
        Err(Memory) => Err(Answer::Memory),
    }
}

/// The chunks that come with a change. A plan that reads stored arrays is refused: no test needs one. Those of an insert are as if its
/// array had no version, so it fills each chunk that it touches, or touches those alone that hold no cell.
pub(crate) fn chunks_of<R: Threads + Sync>(
    rt: &R,
    alloc: Global,
    change: &Change,
    names: &Names,
) -> Result<Option<Changed>, Answer>
    requires stored { AreStored names.now }
    requires typed { IsTypedFor names.now change.now }
    ensures comes { IfOk result (ComesWith change.now) }
    ensures valid { IfOk result (λ some. IfSome some AreValid) }
{
    match change {
        Change::Store { name, schema, plan } => {
            if reads_nothing(alloc, plan) {
                chunks_made(rt, alloc, change, name, schema)
            } else {
                Err(Answer::Reads)
            }
        }
        Change::Insert { name, schema, plan } => {
            if reads_nothing(alloc, plan) {
                chunks_made(rt, alloc, change, name, schema)
            } else {
                Err(Answer::Reads)
            }
        }
        Change::Create { .. } | Change::Remove { .. } | Change::RemoveVersions { .. } => Ok(None),
    }
}
