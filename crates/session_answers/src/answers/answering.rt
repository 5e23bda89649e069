//! The answer to a statement.
ghost use Rattle.std.specs.Prelude.{◌≡◌, ◌≤◌, length, None};
ghost use Rattle.afl_trees.specs.Statement.{DerivesText};
ghost use Rattle.afl_trees.specs.Term.{Term};
ghost use Rattle.snapshot_manager.specs.Seats.{last_place, read_count, seen, session_of, start, HoldsNone, IsIdle, IsSameSeat, IsSeatOf};
ghost use Rattle.session_answers.specs.Answered.{IsAnswered};
ghost use Rattle.session_answers.specs.Inner.Tree.{IsAnsweredTree, MayAnswer, TellsUnparsed, TellsUnpinned};
ghost use Rattle.session_answers.specs.Reads.{ReadsOnce};

use crate::answers::pinned::answer_pinned;
use crate::replies::{Reply, refusal_at, refusal_or_want, want};
use crate::turns::Options;
use afl_outside::{Disk, Gate, Point};
use afl_parser::{ParseFault, parse};
use afl_trees::{Tree, let_go_tree};
use result_print::Refusal;
use snapshot_manager::{Seat, Shared};
use std::alloc::Global;
use std::sync::Wait;
use std::thread::Threads;
use store_ledger::PinFault;

/// Answers a statement of a seat's session, which is its statement of this number.
///
/// It is parsed, and checked and computed under a pin of its own, outside every turn. A change is then committed; where the arrays that it
/// reads are no longer as they were, it is checked and computed again in the turn of its commit.
pub fn answer<D: Disk, R: Threads + Wait + Sync, G: Gate>(
    rt: &R,
    alloc: Global,
    shared: &Shared<D>,
    seat: Seat<D>,
    text: &[u8],
    number: u64,
    options: &Options,
    gate: &G,
) -> (Reply, Seat<D>)
    requires seat { IsSeatOf shared.now seat × IsIdle seat }
    requires none { HoldsNone D.moment shared.now seat }
    requires length { length text.now ≤ 1048576 }
    requires workers { (1 ≤ options.now.workers) × (options.now.workers ≤ 64) }
    ensures seat { IsSeatOf shared.now result.1 × IsIdle result.1 }
    ensures session { session_of result.1 ≡ session_of seat }
    ensures none { HoldsNone D.moment shared.now result.1 }
    ensures last { last_place result.1 ≡ result.0.place }
    ensures answered { IsAnswered options.now.style D.moment (start D.moment shared.now) (session_of seat) (last_place seat)
        (seen seat) (seen result.1) text.now result.0 }
    ensures reads { (tree : Term) → DerivesText text.now tree → result.0.refusal ≡ None
        → ReadsOnce D.moment (start D.moment shared.now) (session_of seat) (seen seat) (seen result.1) text.now tree
        (read_count seat) (read_count result.1) }
{
    match parse(alloc, text) {
        Ok(tree) => {
            let (reply, mut back) = answer_tree(
                rt, alloc, shared, seat, text, &tree, number, options, gate,
            );
            let_go_tree(tree);
            back.keep_last(reply.place);
            (reply, back)
        }
        Err(fault) => {
            let mut seat = seat;
            let reply = unparsed(alloc, fault, seat.last(), seat.seen());
            seat.keep_last(reply.place);
            (reply, seat)
        }
    }
}

/// The reply to a text that isn't parsed, when so many entries were seen.
fn unparsed(alloc: Global, fault: ParseFault, last: u64, seen: u64) -> Reply
    ensures { TellsUnparsed last seen fault result }
{
    match fault {
        ParseFault::At { at, kind } => {
            refusal_or_want(alloc, Refusal::Parse { at, kind }, last, seen)
        }
        ParseFault::Memory => want(alloc, seen),
    }
}

/// Answers a statement with this tree.
fn answer_tree<D: Disk, R: Threads + Wait + Sync, G: Gate>(
    rt: &R,
    alloc: Global,
    shared: &Shared<D>,
    mut seat: Seat<D>,
    text: &[u8],
    tree: &Tree,
    number: u64,
    options: &Options,
    gate: &G,
) -> (Reply, Seat<D>)
    requires ready { MayAnswer options.now D.moment shared.now seat text.now tree.now }
    ensures seat { IsSeatOf shared.now result.1 × IsIdle result.1 }
    ensures same { IsSameSeat seat result.1 }
    ensures none { HoldsNone D.moment shared.now result.1 }
    ensures answered { IsAnsweredTree options.now.style D.moment (start D.moment shared.now) (session_of seat)
        (seen seat) (seen result.1) text.now tree.now result.0 }
    ensures reads { result.0.refusal ≡ None
        → ReadsOnce D.moment (start D.moment shared.now) (session_of seat) (seen seat) (seen result.1) text.now tree.now
        (read_count seat) (read_count result.1) }
{
    let session = seat.session();
    gate.pass(session, Point::Statement(number));
    match shared.pin(rt, &mut seat) {
        Ok(pinned) => {
            gate.pass(session, Point::Pinned(number));
            let (reply, mut seat) = answer_pinned(
                rt, alloc, shared, seat, &pinned, text, tree, number, options, gate,
            );
            shared.unpin(rt, &mut seat, pinned);
            (reply, seat)
        }
        Err(fault) => (unpinned(alloc, fault, seat.seen()), seat),
    }
}

/// The reply where there is no pin, when so many entries were seen.
fn unpinned(alloc: Global, fault: PinFault, seen: u64) -> Reply
    ensures { TellsUnpinned seen fault result }
{
    match fault {
        PinFault::HistoryFull { entries } => {
            let place = u64::from(entries);
            refusal_at(alloc, Refusal::HistoryFull, place)
        }
        PinFault::Memory => want(alloc, seen),
    }
}
