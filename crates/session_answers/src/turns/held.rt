//! Answers in a turn that is held.
ghost use Rattle.std.specs.Prelude.{◌≡◌, ◌≤◌, false, Ok as Good, IsTrue, Option};
ghost use Rattle.check_exprs.specs.Laws.{leaves_fit};
ghost use Rattle.plan_changes.specs.declared.change.Change.{Change};
ghost use Rattle.plan_changes.specs.Stored.{AreStored};
ghost use Rattle.afl_types.specs.Checking.{check_of};
ghost use Rattle.afl_types.specs.declared.types.statements.checking.Typed.TheVariants.{Change as AChange};
ghost use Rattle.array_geom.specs.declared.chunk.Changed.{Changed};
ghost use Rattle.statement_replies.specs.declared.answers.outcome.Outcome.TheVariants.{Changes};
ghost use Rattle.statement_replies.specs.declared.replies.replies.Reply.{Reply as Words};
ghost use Rattle.event_core.specs.Allowed.{is_pinned};
ghost use Rattle.store_ledger.specs.Ledger.{history, is_noted, is_tried};
ghost use Rattle.store_state.specs.At.{standing};
ghost use Rattle.store_state.specs.Events.{events, owner_of};
ghost use Rattle.snapshot_manager.specs.Starts.{start_of};
ghost use Rattle.session_sources.specs.Held.{names_now};
ghost use Rattle.snapshot_manager.specs.Prepared.{IsAsked};
ghost use Rattle.snapshot_manager.specs.Seats.{ledger_seen, read_count, seen, start, store_of, HasTurn, HoldsPin, IsIdle, IsSameSeat, IsSeatOf};
ghost use Rattle.snapshot_manager.specs.Owners.{ExtendsByOwn};
ghost use Rattle.snapshot_manager.specs.Told.{IsTold};
ghost use Rattle.session_answers.specs.Inner.Turns.{store_in, Follows, Goes, IsOver, IsTried, KeepsTurn};
ghost use Rattle.session_answers.specs.AnsweredUnder.{IsAnsweredInTurn};

use crate::replies::{Attempt, Reply, at_place, reply_read, uncommitted, want};
use crate::turns::settings::Options;
use afl_outside::{Disk, Gate};
use afl_trees::Tree;
use array_store::Store;
use cell_values::Memory;
use chunk_source::ExecFault;
use logical_plan::Names;
use session_sources::HeldSource;
use snapshot_manager::{Seat, Shared, StoreTurn, commit};
use statement_replies::{Outcome, Reply as Words, let_go_reply, outcome_of};
use std::alloc::Global;
use std::sync::Wait;
use std::thread::Threads;
use store_ledger::Pinned;

/// Answers a statement over the store of a turn that its seat holds, and ends the turn. Under the pin the statement was a change.
pub fn answer_held<D: Disk, R: Threads + Wait + Sync, G: Gate>(
    rt: &R,
    alloc: Global,
    shared: &Shared<D>,
    seat: Seat<D>,
    turn: StoreTurn<D>,
    pinned: &Pinned,
    text: &[u8],
    tree: &Tree,
    options: &Options,
    gate: &G,
) -> (Reply, Seat<D>)
    requires seat { IsSeatOf shared.now seat × HasTurn seat turn }
    requires start { start_of (standing D.moment (store_of turn)) ≡ start D.moment shared.now }
    requires events { events (standing D.moment (store_of turn)) ≡ seen seat }
    requires held { IsTold (start D.moment shared.now) (seen seat) (standing D.moment (store_of turn)) }
    requires pin { HoldsPin D.moment shared.now seat pinned.now }
    requires tried { is_noted is_tried (ledger_seen D.moment shared.now seat) pinned.now.session ≡ false }
    requires change { (change : Change) × (check_of tree.now text.now pinned.now.names ≡ Good (AChange change)) }
    requires fit { IsTrue (leaves_fit tree.now) }
    requires workers { (1 ≤ options.now.workers) × (options.now.workers ≤ 64) }
    ensures seat { IsSeatOf shared.now result.1 × IsIdle result.1 }
    ensures same { IsSameSeat seat result.1 }
    ensures reads { read_count result.1 ≡ read_count seat }
    ensures pin { HoldsPin D.moment shared.now result.1 pinned.now }
    ensures answered { IsAnsweredInTurn options.now.style D.moment (start D.moment shared.now) pinned.now.session pinned.now.place
        (seen seat) (seen result.1) text.now tree.now result.0 }
{
    let mut seat = seat;
    let mut turn = turn;
    turn.value().is_at();
    let (reply, mut turn) = answer_in_turn(
        rt,
        alloc,
        turn,
        pinned.session,
        text,
        tree,
        options,
        gate,
    );
    turn.value().is_at();
    shared.end_turn(rt, &mut seat, turn);
    (reply, seat)
}

/// Answers a statement of a session over the store of a turn.
fn answer_in_turn<D: Disk, R: Threads + Sync, G: Gate>(
    rt: &R,
    alloc: Global,
    mut turn: StoreTurn<D>,
    session: u32,
    text: &[u8],
    tree: &Tree,
    options: &Options,
    gate: &G,
) -> (Reply, StoreTurn<D>)
    requires over { IsOver options.now D.moment session turn tree.now }
    ensures keeps { KeepsTurn D.moment session turn result.1 }
    ensures goes { Goes options.now.style D.moment session turn result.1 text.now tree.now result.0 }
{
    let store = turn.value();
    let place = store.history().len() as u64;
    match store.names().copy() {
        Ok(names) => answer_over(rt, alloc, turn, session, text, tree, &names, options, gate),
        Err(Memory) => (want(alloc, place), turn),
    }
}

/// Answers a statement over the store of a turn, whose names these are.
fn answer_over<D: Disk, R: Threads + Sync, G: Gate>(
    rt: &R,
    alloc: Global,
    turn: StoreTurn<D>,
    session: u32,
    text: &[u8],
    tree: &Tree,
    names: &Names,
    options: &Options,
    gate: &G,
) -> (Reply, StoreTurn<D>)
    requires over { IsOver options.now D.moment session turn tree.now }
    requires names { names.now ≡ names_now (store_of turn).ledger }
    requires stored { AreStored names.now }
    ensures keeps { KeepsTurn D.moment session turn result.1 }
    ensures goes { Goes options.now.style D.moment session turn result.1 text.now tree.now result.0 }
{
    let mut source = HeldSource::new(alloc, turn, session);
    let outcome = outcome_of(
        rt,
        alloc,
        text,
        tree,
        names,
        &mut source,
        options.style,
        options.workers,
        session,
        gate,
    );
    answer_read(alloc, source.into_turn(), session, outcome)
}

/// Answers what came of a statement that was read in a turn.
fn answer_read<D: Disk>(
    alloc: Global,
    mut turn: StoreTurn<D>,
    session: u32,
    outcome: Result<Outcome, ExecFault>,
) -> (Reply, StoreTurn<D>)
    requires pinned { IsTrue (is_pinned session (history (store_of turn).ledger)) }
    requires tried { is_noted is_tried (store_of turn).ledger session ≡ false }
    requires asked { (change : Change) (changed : Option Changed) (words : Words) → outcome ≡ Good (Changes change changed words)
        → IsAsked D.moment (store_in D.moment turn) change changed }
    ensures keeps { KeepsTurn D.moment session turn result.1 }
    ensures follows { Follows D.moment session turn result.1 result.0 outcome }
{
    let store = turn.value();
    let place = store.history().len() as u64;
    match reply_read(alloc, outcome, place) {
        Ok(reply) => (reply, turn),
        Err(attempt) => (commit_in_turn(alloc, store, session, attempt), turn),
    }
}

/// Commits a change of a session in the store of a turn.
fn commit_in_turn<D: Disk>(
    alloc: Global,
    store: &mut Store<D>,
    session: u32,
    attempt: Attempt,
) -> Reply
    requires pinned { IsTrue (is_pinned session (history store.old.ledger)) }
    requires tried { is_noted is_tried store.old.ledger session ≡ false }
    requires asked { IsAsked D.moment (standing D.moment store.old) attempt.change attempt.changed }
    ensures start { start_of (standing D.moment store.new) ≡ start_of (standing D.moment store.old) }
    ensures extends { ExtendsByOwn owner_of session (events (standing D.moment store.old)) (events (standing D.moment store.new)) }
    ensures tried { IsTried D.moment session attempt.change attempt.words (standing D.moment store.old) (standing D.moment store.new) result }
{
    let Attempt {
        change,
        changed,
        words,
    } = attempt;
    let answer = commit(alloc, store, session, change, changed);
    let count = store.history().len() as u64;
    match answer {
        Ok(place) => at_place(words, place),
        Err(fault) => {
            let_go_reply(words);
            uncommitted(alloc, fault, count)
        }
    }
}
