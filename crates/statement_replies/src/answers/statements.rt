//! Statements, from their trees to what comes of them.
ghost use Rattle.std.specs.Prelude.{◌≡◌, ◌≤◌, ◌++◌, None, Ok as Good, IfErr, IfOk, OnErr, IsTrue};
ghost use Rattle.check_exprs.specs.Laws.{leaves_fit};
ghost use Rattle.chunk_exec.specs.Computed.{CanCompute};
ghost use Rattle.chunk_source.specs.Faults.{Answers};
ghost use Rattle.chunk_source.specs.Source.{AsksFront, Keeps};
ghost use Rattle.plan_changes.specs.Databases.{Database};
ghost use Rattle.plan_changes.specs.Stored.{AreStored};
ghost use Rattle.afl_types.specs.Checking.{check_of};
ghost use Rattle.afl_types.specs.declared.types.statements.checking.Typed.TheVariants.{Query as AQuery};
ghost use Rattle.statement_replies.specs.Reading.{HoldsVersions};
ghost use Rattle.statement_replies.specs.Statements.{reply_to};
ghost use Rattle.statement_replies.specs.Inner.Come.{CanRead, ComesOf};
ghost use Rattle.statement_replies.specs.Inner.Made.{CanAnswer};
ghost use Rattle.statement_replies.specs.Outcomes.{ForRowsPut, HasOutcomeKind, IsOutcomeOf, IsToldBy, MayFail, all_asked, asked_for};

use crate::answers::changes::outcome_of_change;
use crate::answers::outcome::{Outcome, replied};
use crate::replies::{Style, answer_query, list_reply, refuse, show_reply, versions_reply};
use afl_outside::Gate;
use afl_trees::Tree;
use afl_types::{TypeFault, Typed, check};
use chunk_source::{ChunkSource, ExecFault};
use logical_plan::{Names, Plan, let_go};
use result_print::Refusal;
use std::alloc::Global;
use std::thread::Threads;

/// What comes of a query.
fn outcome_of_query<S: ChunkSource, R: Threads + Sync, G: Gate>(
    rt: &R,
    alloc: Global,
    plan: Plan,
    names: &Names,
    source: &mut S,
    style: Style,
    workers: u32,
    session: u32,
    gate: &G,
) -> Result<Outcome, ExecFault>
    requires ready { CanRead names.now (S.state source.old) workers }
    requires can { CanCompute (S.state source.old) plan }
    ensures come { ComesOf style names.now (S.state source.old) (S.state source.new) (Good (AQuery plan)) result }
    ensures start { S.start source.new ≡ S.start source.old }
{
    let answer = answer_query(rt, alloc, &plan, source, style, workers, session, gate);
    let_go(plan);
    match answer {
        Ok(reply) => Ok(Outcome::Replied(reply)),
        Err(fault) => Err(fault),
    }
}

/// What comes of a typed statement.
fn outcome_of_typed<S: ChunkSource, R: Threads + Sync, G: Gate>(
    rt: &R,
    alloc: Global,
    typed: Typed,
    names: &Names,
    source: &mut S,
    style: Style,
    workers: u32,
    session: u32,
    gate: &G,
) -> Result<Outcome, ExecFault>
    requires ready { CanRead names.now (S.state source.old) workers }
    requires can { CanAnswer names.now (S.state source.old) typed }
    ensures come { ComesOf style names.now (S.state source.old) (S.state source.new) (Good typed) result }
    ensures start { S.start source.new ≡ S.start source.old }
{
    match typed {
        Typed::Query(plan) => outcome_of_query(
            rt, alloc, plan, names, source, style, workers, session, gate,
        ),
        Typed::Change(change) => outcome_of_change(
            rt, alloc, change, names, source, style, workers, session, gate,
        ),
        Typed::Versions(name) => replied(versions_reply(alloc, &name, names)),
        Typed::Show(name) => replied(show_reply(alloc, &name, names)),
        Typed::ListArrays => replied(list_reply(alloc, names)),
    }
}

/// What comes of a statement's tree, which is of this text, over the arrays of a source that has the versions of these names: its
/// reply, in this style, or a change that may be committed. How many workers there are changes nothing.
pub fn outcome_of<S: ChunkSource, R: Threads + Sync, G: Gate>(
    rt: &R,
    alloc: Global,
    text: &[u8],
    tree: &Tree,
    names: &Names,
    source: &mut S,
    style: Style,
    workers: u32,
    session: u32,
    gate: &G,
) -> Result<Outcome, ExecFault>
    requires undamaged { (S.state source.old).damaged ≡ None }
    requires fit { IsTrue (leaves_fit tree.now) }
    requires stored { AreStored names.now }
    requires holds { HoldsVersions names.now (S.state source.old) }
    requires workers { (1 ≤ workers) × (workers ≤ 64) }
    ensures kind { IfOk result (HasOutcomeKind style names.now (check_of tree.now text.now names.now)) }
    ensures told { IfOk result (λ outcome. (db : Database) → IsToldBy names.now (S.state source.old) db
        → IsOutcomeOf db (reply_to style db text.now tree.now) outcome) }
    ensures asked { let old = S.state source.old in
        let checked = check_of tree.now text.now names.now in
        IfOk result (λ outcome. ForRowsPut names.now old checked (λ rows.
        (S.state source.new).asked ≡ old.asked ++ asked_for rows old names.now checked outcome)) }
    ensures front { let old = S.state source.old in
        let checked = check_of tree.now text.now names.now in
        OnErr result (ForRowsPut names.now old checked (λ rows.
        AsksFront (all_asked rows old names.now checked) old (S.state source.new))) }
    ensures kept { Keeps (S.state source.old) (S.state source.new) }
    ensures cause { Answers (S.state source.old) (S.state source.new) result }
    ensures allowed { IfErr result (λ fault. MayFail fault (check_of tree.now text.now names.now)) }
    ensures start { S.start source.new ≡ S.start source.old }
{
    match check(alloc, tree, text, names) {
        Ok(typed) => outcome_of_typed(
            rt, alloc, typed, names, source, style, workers, session, gate,
        ),
        Err(TypeFault::Rule { span, kind }) => replied(refuse(
            alloc,
            Refusal::Typing { span, kind },
        )),
        Err(TypeFault::Memory) => Err(ExecFault::Memory),
    }
}
