//! Steps of a session at a shared store.
ghost use Rattle.std.specs.Prelude.{◌≡◌, OnErr};
ghost use Rattle.store_state.specs.At.{standing};
ghost use Rattle.store_state.specs.Events.{events};
ghost use Rattle.snapshot_manager.specs.Commits.{IfStale, OnEnd};
ghost use Rattle.snapshot_manager.specs.Starts.{start_of};
ghost use Rattle.snapshot_manager.specs.Seats.{HasTurn, IsIdle, IsSameSeat, IsSeatOf, seen, start, store_of};
ghost use Rattle.plan_changes.specs.Stored.{HasItsNames};
ghost use Rattle.test_quiet.specs.Offers.{IsOffer};
ghost use Rattle.test_stores.specs.Visits.{IsFree, IsPinOf, IsUntold, IsUntried};

use afl_outside::Disk;
use cell_values::{List, Name};
use logical_plan::NameEntry;
use plan_changes::{Change, changed_name, has_its_names, newest_of};
use snapshot_manager::{Commit, CommitFault, Seat, Shared};
use std::alloc::Global;
use std::sync::Wait;
use std::thread::Threads;
use store_ledger::Pinned;
use test_quiet::{Answer, Offer, offer_over};

/// The name of the array that a change is about, if there is memory for it.
fn name_in(change: &Change) -> Option<Name>
    ensures { HasItsNames change.now }
{
    has_its_names(change);
    changed_name(change).copy().ok()
}

fn newest_in(arrays: &List<NameEntry>, name: &Option<Name>) -> u32 {
    match name {
        Some(name) => newest_of(arrays, name),
        None => 0,
    }
}

/// Why a change isn't committed.
fn answer_of(fault: CommitFault) -> Answer {
    match fault {
        CommitFault::SequenceEnd { .. } => Answer::SequenceEnd,
        CommitFault::Full { needed, free, .. } => Answer::Full { needed, free },
        CommitFault::Disk { .. } => Answer::Disk,
        CommitFault::Memory => Answer::Memory,
    }
}

/// Ends the turn that a commit may have handed out. The store in hand tells the newest version of the array.
fn given_back<D: Disk, R: Wait>(
    rt: &R,
    shared: &Shared<D>,
    seat: &mut Seat<D>,
    name: &Option<Name>,
    found: Result<Commit<D>, CommitFault>,
) -> Answer
    requires seat { IsSeatOf shared.now seat.old }
    requires idle { OnEnd (IsIdle seat.old) found }
    requires turn { IfStale (λ turn. HasTurn seat.old turn) found }
    requires began { IfStale (λ turn. start_of (standing D.moment (store_of turn)) ≡ start D.moment shared.now) found }
    requires events { IfStale (λ turn. events (standing D.moment (store_of turn)) ≡ seen seat.old) found }
    ensures seat { IsSeatOf shared.now seat.new × IsIdle seat.new }
    ensures same { IsSameSeat seat.old seat.new }
    ensures seen { seen seat.new ≡ seen seat.old }
{
    match found {
        Ok(Commit::Done { place }) => Answer::At { place },
        Ok(Commit::Stale(mut turn)) => {
            let newest = newest_in(&turn.value().names().arrays, name);
            shared.end_turn(rt, seat, turn);
            Answer::StaleTo { newest }
        }
        Err(fault) => answer_of(fault),
    }
}

/// Commits a change under a session's pin. Nothing is known of what the disk holds, so that nothing of it is asked.
fn committed<D: Disk, R: Wait>(
    rt: &R,
    alloc: Global,
    shared: &Shared<D>,
    seat: &mut Seat<D>,
    pinned: &Pinned,
    offer: Offer,
) -> Answer
    requires untold { IsUntold D.moment shared.now }
    requires seat { IsSeatOf shared.now seat.old × IsIdle seat.old }
    requires pin { IsUntried D.moment shared.now seat.old pinned.now }
    requires offer { IsOffer pinned.now.names offer }
    ensures seat { IsSeatOf shared.now seat.new × IsIdle seat.new }
    ensures pin { IsPinOf D.moment shared.now seat.new pinned.now }
{
    let Offer { change, changed } = offer;
    let name = name_in(&change);
    let found = shared.commit(rt, alloc, seat, pinned, change, changed);
    given_back(rt, shared, seat, &name, found)
}

/// What the commit of the change is answered that a text is under a session's pin; else why none was tried.
pub(crate) fn changed<D: Disk, R: Threads + Wait + Sync>(
    rt: &R,
    alloc: Global,
    shared: &Shared<D>,
    seat: &mut Seat<D>,
    pinned: &Pinned,
    text: &[u8],
) -> Result<Answer, Answer>
    requires untold { IsUntold D.moment shared.now }
    requires seat { IsSeatOf shared.now seat.old × IsIdle seat.old }
    requires pin { IsUntried D.moment shared.now seat.old pinned.now }
    ensures seat { IsSeatOf shared.now seat.new × IsIdle seat.new }
    ensures pin { IsPinOf D.moment shared.now seat.new pinned.now }
    ensures untried { OnErr result (IsUntried D.moment shared.now seat.new pinned.now) }
{
    match offer_over(rt, alloc, &pinned.names, text) {
        Ok(offer) => Ok(committed(rt, alloc, shared, seat, pinned, offer)),
        Err(answer) => Err(answer),
    }
}

/// An answer, whether a commit was tried or none.
fn either(found: Result<Answer, Answer>) -> Answer {
    match found {
        Ok(answer) | Err(answer) => answer,
    }
}

/// A pin of a session that has none, the change that a text is, committed under it, and the unpin.
pub fn commit_once<D: Disk, R: Threads + Wait + Sync>(
    rt: &R,
    alloc: Global,
    shared: &Shared<D>,
    seat: &mut Seat<D>,
    text: &[u8],
) -> Answer
    requires untold { IsUntold D.moment shared.now }
    requires free { IsFree D.moment shared.now seat.old }
    ensures { IsFree D.moment shared.now seat.new }
{
    match shared.pin(rt, seat) {
        Ok(pinned) => {
            let answer = changed(rt, alloc, shared, seat, &pinned, text);
            shared.unpin(rt, seat, pinned);
            either(answer)
        }
        Err(_) => Answer::HasNoPin,
    }
}
