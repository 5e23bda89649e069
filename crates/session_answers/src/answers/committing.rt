//! Commits of changes, and their answers.
ghost use Rattle.std.specs.Prelude.{◌≡◌, List};
ghost use Rattle.store_state.specs.declared.state.event.Event.{Event};
ghost use Rattle.snapshot_manager.specs.Seats.{read_count, seen, start, HoldsPin, IsIdle, IsSameSeat, IsSeatOf};
ghost use Rattle.session_answers.specs.AnsweredUnder.{IsAnsweredUnder};
ghost use Rattle.session_answers.specs.Inner.Steps.{AddsNoAct, MayCommit, Tells};

use crate::replies::{Attempt, Reply, at_place, uncommitted};
use crate::turns::{Options, answer_held};
use afl_outside::{Disk, Gate};
use afl_trees::Tree;
use snapshot_manager::{Commit, CommitFault, Seat, Shared, StoreTurn};
use statement_replies::{Reply as Words, let_go_reply};
use std::alloc::Global;
use std::sync::Wait;
use std::thread::Threads;
use store_ledger::Pinned;

/// Commits a change that a statement was under the pin, and answers as it goes.
pub(crate) fn commit<D: Disk, R: Threads + Wait + Sync, G: Gate>(
    rt: &R,
    alloc: Global,
    shared: &Shared<D>,
    mut seat: Seat<D>,
    pinned: &Pinned,
    text: &[u8],
    tree: &Tree,
    attempt: Attempt,
    options: &Options,
    gate: &G,
) -> (Reply, Seat<D>)
    requires ready { MayCommit options.now D.moment shared.now seat pinned.now text.now tree.now attempt }
    ensures seat { IsSeatOf shared.now result.1 × IsIdle result.1 }
    ensures same { IsSameSeat seat result.1 }
    ensures reads { read_count result.1 ≡ read_count seat }
    ensures pin { HoldsPin D.moment shared.now result.1 pinned.now }
    ensures answered { (first before : List Event) → AddsNoAct (start D.moment shared.now) pinned.now.session first before (seen seat)
        → IsAnsweredUnder options.now.style D.moment (start D.moment shared.now) pinned.now.session pinned.now.place
        first (seen result.1) text.now tree.now result.0 }
{
    let Attempt {
        change,
        changed,
        words,
    } = attempt;
    let answer = shared.commit(rt, alloc, &mut seat, pinned, change, changed);
    match tell(alloc, answer, words, seat.seen()) {
        Ok(reply) => (reply, seat),
        Err(turn) => answer_held(
            rt, alloc, shared, seat, turn, pinned, text, tree, options, gate,
        ),
    }
}

/// The reply to a commit that was tried, when so many entries were seen; or the turn in which the change was stale.
fn tell<D: Disk>(
    alloc: Global,
    answer: Result<Commit<D>, CommitFault>,
    words: Words,
    count: u64,
) -> Result<Reply, StoreTurn<D>>
    ensures { Tells count words answer result }
{
    match answer {
        Ok(Commit::Done { place }) => Ok(at_place(words, place)),
        Ok(Commit::Stale(turn)) => {
            let_go_reply(words);
            Err(turn)
        }
        Err(fault) => {
            let_go_reply(words);
            Ok(uncommitted(alloc, fault, count))
        }
    }
}
