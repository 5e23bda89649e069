//! Answers under a pin.
ghost use Rattle.std.specs.Prelude.{◌≡◌, None};
ghost use Rattle.snapshot_manager.specs.Seats.{read_count, seen, start, HoldsPin, IsIdle, IsSameSeat, IsSeatOf};
ghost use Rattle.session_answers.specs.AnsweredUnder.{IsAnsweredUnder};
ghost use Rattle.session_answers.specs.Inner.Steps.{IsUnder, MayRead, ReadsSource, WasRead};
ghost use Rattle.session_answers.specs.Reads.{CountsAt};

use crate::answers::committing::commit;
use crate::replies::{Reply, reply_read};
use crate::turns::Options;
use afl_outside::{Disk, Gate, Point};
use afl_trees::Tree;
use chunk_source::ExecFault;
use session_sources::PinnedSource;
use snapshot_manager::{Seat, Shared};
use statement_replies::{Outcome, outcome_of};
use std::alloc::Global;
use std::sync::Wait;
use std::thread::Threads;
use store_ledger::Pinned;

/// Answers a statement under the pin of its session.
pub(crate) fn answer_pinned<D: Disk, R: Threads + Wait + Sync, G: Gate>(
    rt: &R,
    alloc: Global,
    shared: &Shared<D>,
    seat: Seat<D>,
    pinned: &Pinned,
    text: &[u8],
    tree: &Tree,
    number: u64,
    options: &Options,
    gate: &G,
) -> (Reply, Seat<D>)
    requires under { IsUnder options.now D.moment shared.now seat pinned.now tree.now }
    ensures seat { IsSeatOf shared.now result.1 × IsIdle result.1 }
    ensures same { IsSameSeat seat result.1 }
    ensures pin { HoldsPin D.moment shared.now result.1 pinned.now }
    ensures answered { IsAnsweredUnder options.now.style D.moment (start D.moment shared.now) pinned.now.session pinned.now.place
        (seen seat) (seen result.1) text.now tree.now result.0 }
    ensures reads { result.0.refusal ≡ None
        → CountsAt D.moment (start D.moment shared.now) (seen seat) pinned.now.place pinned.now.names text.now tree.now
        (read_count seat) (read_count result.1) }
{
    let _seen = seat.seen();
    let place = pinned.place + 1;
    let (outcome, seat) = read_under(rt, alloc, shared, seat, pinned, text, tree, options, gate);
    match reply_read(alloc, outcome, place) {
        Ok(reply) => (reply, seat),
        Err(attempt) => {
            gate.pass(pinned.session, Point::Computed(number));
            commit(
                rt, alloc, shared, seat, pinned, text, tree, attempt, options, gate,
            )
        }
    }
}

/// What comes of a statement over what the pin sees.
fn read_under<D: Disk, R: Threads + Wait + Sync, G: Gate>(
    rt: &R,
    alloc: Global,
    shared: &Shared<D>,
    seat: Seat<D>,
    pinned: &Pinned,
    text: &[u8],
    tree: &Tree,
    options: &Options,
    gate: &G,
) -> (Result<Outcome, ExecFault>, Seat<D>)
    requires under { IsUnder options.now D.moment shared.now seat pinned.now tree.now }
    ensures read { WasRead options.now.style D.moment shared.now pinned.now seat result.1 text.now tree.now result.0 }
{
    let mut source = PinnedSource::new(rt, alloc, shared, seat, pinned);
    let outcome = read_source(rt, alloc, &mut source, pinned, text, tree, options, gate);
    let seat = source.into_seat();
    (outcome, seat)
}

/// What comes of a statement over the source of a pin.
fn read_source<D: Disk, R: Threads + Wait + Sync, G: Gate>(
    rt: &R,
    alloc: Global,
    source: &mut PinnedSource<'_, D, R>,
    pinned: &Pinned,
    text: &[u8],
    tree: &Tree,
    options: &Options,
    gate: &G,
) -> Result<Outcome, ExecFault>
    requires ready { MayRead options.now pinned.now source.old tree.now }
    ensures { ReadsSource options.now.style D.moment pinned.now text.now tree.now source.old source.new result }
{
    outcome_of(
        rt,
        alloc,
        text,
        tree,
        &pinned.names,
        source,
        options.style,
        options.workers,
        pinned.session,
        gate,
    )
}
