//! Stores and inserts.
ghost use Rattle.std.specs.Prelude.{◌≡◌, ◌≤◌, ◌++◌, [], ℕ, List as Items, true, false, None, Some, IfOk, OnOk, OnErr};
ghost use Rattle.cell_values.specs.declared.datum.Row.{Row as Placed};
ghost use Rattle.chunk_source.specs.Faults.{Answers};
ghost use Rattle.chunk_source.specs.Source.{AsksFront, Keeps, Reads};
ghost use Rattle.chunk_exec.specs.Computed.{asked_for_plan};
ghost use Rattle.commit_pages.specs.Changes.{AreValid, ComesWith, IsOf};
ghost use Rattle.logical_plan.specs.Meaning.{version_rows};
ghost use Rattle.logical_plan.specs.Query.{Query};
ghost use Rattle.plan_changes.specs.Databases.{Database, fitted, newest_rows, rows_if_whole, rows_of};
ghost use Rattle.plan_changes.specs.Kept.{MeansArray};
ghost use Rattle.plan_changes.specs.declared.change.Change.TheVariants.{Store, Insert};
ghost use Rattle.changed_chunks.specs.Changing.{AsksOnly, CanChange, CanStore, IsAnswerOver, IsToldOf};
ghost use Rattle.changed_chunks.specs.Changing.{asked_for, asked_of_all, asked_or_fault, asked_with};
ghost use Rattle.cell_values.specs.Schemas.{IsValid};
ghost use Rattle.array_geom.specs.Link.{Is};
ghost use Rattle.array_parts.specs.Cores.{HasCells};
ghost use Rattle.logical_plan.specs.Meaning.{meaning};
ghost use Rattle.changed_chunks.specs.Inner.Input.{IsFound, MayBeStored, TakesRows};
ghost use Rattle.changed_chunks.specs.Targets.{IsTargetAsking, asking_over, asking_put};

use crate::chunks::input::{input_of, rows_in};
use crate::chunks::target::put_over_target;
use crate::chunks::unchanged::is_storable;
use crate::chunks::versions::{all_of, stored_array, whole_version};
use crate::traces::Asking;
use afl_outside::Gate;
use array_geom::{Changed, ChunkedArray};
use cell_values::{Broken, List, Memory, Row, Schema};
use chunk_exec::{ExecFault, execute};
use chunk_source::ChunkSource;
use logical_plan::{Leaf, Plan};
use plan_changes::Change;
use std::alloc::Global;
use std::thread::Threads;

/// All chunks of the rows that are found, or their fault.
fn stored_chunks(
    schema: &Schema,
    found: Result<List<Row>, Broken>,
) -> Result<Result<Changed, Broken>, Memory>
    requires { IfOk found (MayBeStored schema.now) }
    ensures is_of { IfOk result (λ made. IfOk made (IsOf schema.now true)) }
    ensures valid { IfOk result (λ made. IfOk made AreValid) }
    ensures told { IfOk result (λ made. (db : Database) (name : Items ℕ) (plan : Query) → MeansArray db plan → IsFound (fitted schema.now plan db) found
        → IsAnswerOver db (Store name schema.now plan) made) }
{
    match found {
        Ok(input) => Ok(Ok(all_of(stored_array(schema, input)?))),
        Err(broken) => Ok(Err(broken)),
    }
}

/// All chunks of a plan's array as they are stored under a schema, or where and why it is broken, or else its first fault.
fn chunks_of(array: ChunkedArray, schema: &Schema) -> Result<Result<Changed, Broken>, Memory>
    requires cells { HasCells array }
    requires valid { IsValid schema.now }
    requires takes { TakesRows schema.now array.schema }
    ensures is_of { IfOk result (λ made. IfOk made (IsOf schema.now true)) }
    ensures valid { IfOk result (λ made. IfOk made AreValid) }
    ensures told { IfOk result (λ made. (db : Database) (name : Items ℕ) (plan : Query) → Is array (meaning (rows_of db) plan) → MeansArray db plan
        → IsAnswerOver db (Store name schema.now plan) made) }
{
    if is_storable(&array, schema) {
        return Ok(Ok(whole_version(array)));
    }
    stored_chunks(schema, rows_in(array, schema)?)
}

/// The chunks that a store writes.
fn stored<S: ChunkSource, R: Threads + Sync, G: Gate>(
    rt: &R,
    alloc: Global,
    plan: &Plan,
    schema: &Schema,
    source: &mut S,
    workers: u32,
    session: u32,
    gate: &G,
) -> Result<Result<Changed, Broken>, ExecFault>
    requires undamaged { (S.state source.old).damaged ≡ None }
    requires can { CanStore (S.state source.old) schema.now plan.now }
    requires workers { (1 ≤ workers) × (workers ≤ 64) }
    ensures is_of { IfOk result (λ made. IfOk made (IsOf schema.now true)) }
    ensures valid { IfOk result (λ made. IfOk made AreValid) }
    ensures told { IfOk result (λ made. (db : Database) → (S.state source.old).tells (rows_of db)
        → (name : Items ℕ) → IsAnswerOver db (Store name schema.now plan.now) made) }
    ensures asked { OnOk result ((S.state source.new).asked ≡ (S.state source.old).asked ++ asked_for_plan (S.state source.old) plan.now) }
    ensures front { let old = S.state source.old in OnErr result (AsksFront (asked_for_plan old plan.now) old (S.state source.new)) }
    ensures kept { Keeps (S.state source.old) (S.state source.new) }
    ensures cause { Answers (S.state source.old) (S.state source.new) result }
    ensures start { S.start source.new ≡ S.start source.old }
{
    match execute(rt, alloc, plan, source, workers, session, gate) {
        Ok(array) => match chunks_of(array, schema) {
            Ok(made) => Ok(made),
            Err(Memory) => Err(ExecFault::Memory),
        },
        Err(fault) => Err(fault),
    }
}

/// The chunks that an insert writes over its target. How many chunks of the target are asked for, and of how many, is put into `asking`.
fn inserted<S: ChunkSource, R: Threads + Sync, G: Gate>(
    rt: &R,
    alloc: Global,
    plan: &Plan,
    schema: &Schema,
    target: &Leaf,
    source: &mut S,
    asking: &mut Asking,
    workers: u32,
    session: u32,
    gate: &G,
) -> Result<Result<Changed, Broken>, ExecFault>
    requires undamaged { (S.state source.old).damaged ≡ None }
    requires can { CanStore (S.state source.old) schema.now plan.now }
    requires reads { Reads (S.state source.old) target.now }
    requires schema { target.now.schema ≡ schema.now }
    requires workers { (1 ≤ workers) × (workers ≤ 64) }
    ensures is_of { IfOk result (λ made. IfOk made (IsOf schema.now false)) }
    ensures valid { IfOk result (λ made. IfOk made AreValid) }
    ensures told { IfOk result (λ made. (db : Database) → (S.state source.old).tells (rows_of db)
        → (name : Items ℕ) → version_rows (rows_of db) target.now.name target.now.version ≡ newest_rows db name
        → IsAnswerOver db (Insert name schema.now plan.now) made) }
    ensures counted { IfOk result (λ made. IfOk made (λ changed. (db : Database) → (S.state source.old).tells (rows_of db)
        → asking.new ≡ asking_put schema.now.dimensions (rows_if_whole (fitted schema.now plan.now db))
        (version_rows (rows_of db) target.now.name target.now.version))) }
    ensures asked { let old = S.state source.old in IfOk result (λ made. (db : Database) → old.tells (rows_of db)
        → (S.state source.new).asked ≡ old.asked ++ asked_for db old (Insert [] schema.now plan.now) target.now made) }
    ensures front { let old = S.state source.old in OnErr result ((db : Database) → old.tells (rows_of db)
        → AsksFront (asked_of_all db old (Insert [] schema.now plan.now) target.now) old (S.state source.new)) }
    ensures only { let old = S.state source.old in IfOk result (λ made. (rows : Items Placed)
        × ((S.state source.new).asked ≡ old.asked ++ asked_or_fault rows old (Insert [] schema.now plan.now) target.now made)
        × IfOk made (λ changed. asking.new ≡ asking_over old rows target.now)) }
    ensures some { let old = S.state source.old in OnErr result ((rows : Items Placed)
        × AsksFront (asked_with rows old (Insert [] schema.now plan.now) target.now) old (S.state source.new)) }
    ensures kept { Keeps (S.state source.old) (S.state source.new) }
    ensures cause { Answers (S.state source.old) (S.state source.new) result }
    ensures start { S.start source.new ≡ S.start source.old }
{
    match input_of(rt, alloc, plan, schema, source, workers, session, gate)? {
        Ok(put) => Ok(Ok(put_over_target(alloc, plan, &put, target, source, asking)?)),
        Err(broken) => Ok(Err(broken)),
    }
}

/// The chunks that a store or an insert writes, or where and why its plan's array has a fault. An insert's target is the newest
/// version of its array; how many of its chunks are asked for, and how many it has, is put into `asking`. A store's target isn't looked
/// at. How many workers there are changes nothing.
pub fn changed<S: ChunkSource, R: Threads + Sync, G: Gate>(
    rt: &R,
    alloc: Global,
    change: &Change,
    target: &Leaf,
    source: &mut S,
    asking: &mut Asking,
    workers: u32,
    session: u32,
    gate: &G,
) -> Result<Result<Changed, Broken>, ExecFault>
    requires undamaged { (S.state source.old).damaged ≡ None }
    requires can { CanChange (S.state source.old) change.now target.now }
    requires workers { (1 ≤ workers) × (workers ≤ 64) }
    ensures comes { IfOk result (λ made. IfOk made (λ changed. ComesWith change.now (Some changed))) }
    ensures valid { IfOk result (λ made. IfOk made AreValid) }
    ensures told { IfOk result (λ made. (db : Database) → IsToldOf (S.state source.old) change.now target.now db → IsAnswerOver db change.now made) }
    ensures counted { IfOk result (λ made. IfOk made (λ changed. (db : Database) → IsToldOf (S.state source.old) change.now target.now db
        → IsTargetAsking db change.now asking.new)) }
    ensures asked { let old = S.state source.old in
        IfOk result (λ made. (db : Database) → IsToldOf old change.now target.now db
        → (S.state source.new).asked ≡ old.asked ++ asked_for db old change.now target.now made) }
    ensures front { let old = S.state source.old in
        OnErr result ((db : Database) → IsToldOf old change.now target.now db
        → AsksFront (asked_of_all db old change.now target.now) old (S.state source.new)) }
    ensures only { AsksOnly (S.state source.old) (S.state source.new) change.now target.now asking.new result }
    ensures kept { Keeps (S.state source.old) (S.state source.new) }
    ensures cause { Answers (S.state source.old) (S.state source.new) result }
    ensures start { S.start source.new ≡ S.start source.old }
{
    match change {
        Change::Store { schema, plan, .. } => {
            stored(rt, alloc, plan, schema, source, workers, session, gate)
        }
        Change::Insert { schema, plan, .. } => {
            inserted(
                rt, alloc, plan, schema, target, source, asking, workers, session, gate,
            )
        }
        _ => unreachable!(),
    }
}
