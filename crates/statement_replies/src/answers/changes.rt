//! Changes: the chunks that they write, and what they are answered.
ghost use Rattle.std.specs.Prelude.{◌≡◌, Ok as Good, IfOk};
ghost use Rattle.chunk_source.specs.Faults.{Answers};
ghost use Rattle.chunk_source.specs.Source.{Keeps};
ghost use Rattle.plan_changes.specs.Databases.{Database};
ghost use Rattle.plan_changes.specs.Typed.{IsTypedFor};
ghost use Rattle.afl_types.specs.declared.types.statements.checking.Typed.TheVariants.{Change as AChange};
ghost use Rattle.statement_replies.specs.Reply.{cell_reply, traced};
ghost use Rattle.statement_replies.specs.StatementKinds.{IsChangeReply};
ghost use Rattle.statement_replies.specs.Statements.{change_reply};
ghost use Rattle.statement_replies.specs.Traces.{CanTrace, IsTracedIn, change_lines, newest_leaf};
ghost use Rattle.statement_replies.specs.Inner.Come.{AreMade, CanRead, ComesOf, IsAnswered};
ghost use Rattle.statement_replies.specs.Inner.Made.{IsPutUnder, chunks_or_fault, offered};

use crate::answers::outcome::{Offer, Outcome, offered};
use crate::replies::{Reply, Style, accepted_reply, change_lines, or_fault, refuse};
use afl_outside::Gate;
use array_geom::Changed;
use cell_values::{Broken, Memory, Name, Schema};
use changed_chunks::{Asking, changed, let_go_changed};
use chunk_source::{ChunkSource, ExecFault};
use logical_plan::{Leaf, Names};
use plan_changes::{Change, has_its_names, newest_of};
use result_print::Refusal;
use std::alloc::Global;
use std::thread::Threads;

/// The newest version of an array, version 0 where there is none.
fn newest_leaf(names: &Names, name: &Name, schema: &Schema) -> Result<Leaf, Memory>
    ensures { IfOk result (λ leaf. leaf ≡ newest_leaf names.now name.now schema.now) }
{
    Ok(Leaf {
        name: name.copy()?,
        version: newest_of(&names.arrays, name),
        schema: schema.copy()?,
    })
}

/// Chunks of a change that writes some, as those that come with it.
fn with_chunks(
    made: Result<Result<Changed, Broken>, ExecFault>,
) -> Result<Result<Option<Changed>, Broken>, ExecFault>
    ensures { result ≡ chunks_or_fault made }
{
    match made {
        Ok(Ok(changed)) => Ok(Ok(Some(changed))),
        Ok(Err(broken)) => Ok(Err(broken)),
        Err(fault) => Err(fault),
    }
}

/// The chunks of a change that puts a version under this name, with this schema, or its fault. How many chunks of an insert's target are
/// asked for, and of how many, is put into `asking`.
fn chunks_put<S: ChunkSource, R: Threads + Sync, G: Gate>(
    rt: &R,
    alloc: Global,
    change: &Change,
    name: &Name,
    schema: &Schema,
    names: &Names,
    source: &mut S,
    asking: &mut Asking,
    workers: u32,
    session: u32,
    gate: &G,
) -> Result<Result<Option<Changed>, Broken>, ExecFault>
    requires ready { CanRead names.now (S.state source.old) workers }
    requires typed { IsTypedFor names.now change.now }
    requires put { IsPutUnder name.now schema.now change.now }
    ensures made { AreMade names.now (S.state source.old) (S.state source.new) change.now asking.new result }
    ensures start { S.start source.new ≡ S.start source.old }
{
    match newest_leaf(names, name, schema) {
        Ok(target) => with_chunks(changed(
            rt, alloc, change, &target, source, asking, workers, session, gate,
        )),
        Err(Memory) => Err(ExecFault::Memory),
    }
}

/// The chunks that come with a change, or its fault. How many chunks of an insert's target are asked for, and of how many, is put into
/// `asking`.
fn chunks_of<S: ChunkSource, R: Threads + Sync, G: Gate>(
    rt: &R,
    alloc: Global,
    change: &Change,
    names: &Names,
    source: &mut S,
    asking: &mut Asking,
    workers: u32,
    session: u32,
    gate: &G,
) -> Result<Result<Option<Changed>, Broken>, ExecFault>
    requires ready { CanRead names.now (S.state source.old) workers }
    requires typed { IsTypedFor names.now change.now }
    ensures made { AreMade names.now (S.state source.old) (S.state source.new) change.now asking.new result }
    ensures start { S.start source.new ≡ S.start source.old }
{
    match change {
        Change::Store { name, schema, .. } => chunks_put(
            rt, alloc, change, name, schema, names, source, asking, workers, session, gate,
        ),
        Change::Insert { name, schema, .. } => chunks_put(
            rt, alloc, change, name, schema, names, source, asking, workers, session, gate,
        ),
        Change::Create { .. } => Ok(Ok(None)),
        Change::Remove { .. } => Ok(Ok(None)),
        Change::RemoveVersions { .. } => Ok(Ok(None)),
    }
}

/// The reply to a change that is accepted, where so many chunks of an insert's target are asked for.
fn reply_of_change<S: ChunkSource>(
    alloc: Global,
    style: Style,
    change: &Change,
    names: &Names,
    source: &mut S,
    target: Asking,
) -> Result<Reply, ExecFault>
    requires { CanTrace (S.state source.old) change.now }
    ensures kind { IfOk result (IsChangeReply style names.now change.now) }
    ensures told { IfOk result (λ reply. (db : Database) → IsTracedIn names.now (S.state source.old) change.now target db
        → reply ≡ change_reply names.now (traced style (change_lines db change.now)) change.now) }
    ensures asked { (S.state source.new).asked ≡ (S.state source.old).asked }
    ensures kept { Keeps (S.state source.old) (S.state source.new) }
    ensures cause { Answers (S.state source.old) (S.state source.new) result }
    ensures start { S.start source.new ≡ S.start source.old }
{
    let lines = change_lines(alloc, style, change, names, source, target)?;
    or_fault(accepted_reply(alloc, change, names, &lines))
}

/// The refusal that tells of a cell.
fn faulty(alloc: Global, broken: Broken) -> Result<Reply, Memory>
    ensures { IfOk result (λ reply. reply ≡ cell_reply broken) }
{
    let Broken { at, kind } = broken;
    refuse(alloc, Refusal::Cell { at, kind })
}

/// What a change is answered that has these chunks or this fault, where so many chunks of an insert's target are asked for.
fn answered<S: ChunkSource>(
    alloc: Global,
    style: Style,
    change: &Change,
    names: &Names,
    source: &mut S,
    target: Asking,
    made: Result<Option<Changed>, Broken>,
) -> Result<Result<Offer, Reply>, ExecFault>
    requires { CanTrace (S.state source.old) change.now }
    ensures answer { IsAnswered style names.now (S.state source.old) (S.state source.new) change.now target made result }
    ensures start { S.start source.new ≡ S.start source.old }
{
    match made {
        Ok(changed) => match reply_of_change(alloc, style, change, names, source, target) {
            Ok(reply) => Ok(Ok(Offer { changed, reply })),
            Err(fault) => {
                let_go_changed(changed);
                Err(fault)
            }
        },
        Err(broken) => match faulty(alloc, broken) {
            Ok(reply) => Ok(Err(reply)),
            Err(Memory) => Err(ExecFault::Memory),
        },
    }
}

/// What a change is answered in a style: it is offered for a commit, or refused.
fn offer_of<S: ChunkSource, R: Threads + Sync, G: Gate>(
    rt: &R,
    alloc: Global,
    change: &Change,
    names: &Names,
    source: &mut S,
    style: Style,
    workers: u32,
    session: u32,
    gate: &G,
) -> Result<Result<Offer, Reply>, ExecFault>
    requires ready { CanRead names.now (S.state source.old) workers }
    requires typed { IsTypedFor names.now change.now }
    ensures come { ComesOf style names.now (S.state source.old) (S.state source.new) (Good (AChange change.now)) (offered change.now result) }
    ensures start { S.start source.new ≡ S.start source.old }
{
    has_its_names(change);
    let mut target = Asking {
        asked: 0,
        stored: 0,
    };
    match chunks_of(
        rt,
        alloc,
        change,
        names,
        source,
        &mut target,
        workers,
        session,
        gate,
    ) {
        Ok(made) => answered(alloc, style, change, names, source, target, made),
        Err(fault) => Err(fault),
    }
}

/// What comes of a change, in a style.
pub(crate) fn outcome_of_change<S: ChunkSource, R: Threads + Sync, G: Gate>(
    rt: &R,
    alloc: Global,
    change: Change,
    names: &Names,
    source: &mut S,
    style: Style,
    workers: u32,
    session: u32,
    gate: &G,
) -> Result<Outcome, ExecFault>
    requires ready { CanRead names.now (S.state source.old) workers }
    requires typed { IsTypedFor names.now change }
    ensures come { ComesOf style names.now (S.state source.old) (S.state source.new) (Good (AChange change)) result }
    ensures start { S.start source.new ≡ S.start source.old }
{
    let offer = offer_of(
        rt, alloc, &change, names, source, style, workers, session, gate,
    );
    offered(change, offer)
}
