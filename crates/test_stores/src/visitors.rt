//! Steps of a session that keeps its seat.
ghost use Rattle.std.specs.Prelude.{◌≡◌, IfOk, OnErr};
ghost use Rattle.snapshot_manager.specs.Seats.{IsIdle, IsSeatOf};
ghost use Rattle.test_quiet.specs.declared.holds.Hold.TheVariants as hold;
ghost use Rattle.test_stores.specs.Visits.{IsFree, IsHeld, IsPinOf, IsUntold, IsUntried};
ghost use Rattle.test_stores.specs.Visitors.{IsVisitor};

use crate::reading::told_cells;
use crate::steps::{changed, commit_once};
use afl_outside::Disk;
use snapshot_manager::{Seat, Shared};
use std::alloc::{AllocError, Global};
use std::mem::replace;
use std::sync::Wait;
use std::thread::Threads;
use store_ledger::{PinFault, Pinned};
use test_quiet::{Answer, Hold, Step};

/// A session's seat, and what it has of the store.
#[derive(Drop)]
pub struct Visitor<D: Disk> {
    pub seat: Seat<D>,
    pub held: Hold,
}

/// Whether a commit was made.
fn is_made(answer: Answer) -> bool {
    matches!(answer, Answer::At { .. })
}

/// One of the changes that make A anew: each store comes before a removal of all versions before it.
fn renewal(alloc: Global, place: u32) -> Result<String, AllocError> {
    let number = place / 2;
    if place % 2 == 0 {
        format!(in alloc; "store(build(<v:int64>[i=0:3,2,0], {number}), A)")
    } else {
        format!(in alloc; "remove_versions(A, {})", number.saturating_add(2))
    }
}

/// How many commits are made of so many stores of A, each with a removal of all versions before.
fn renewed<D: Disk, R: Threads + Wait + Sync>(
    rt: &R,
    alloc: Global,
    shared: &Shared<D>,
    seat: &mut Seat<D>,
    count: u32,
) -> u64
    requires untold { IsUntold D.moment shared.now }
    requires free { IsFree D.moment shared.now seat.old }
    ensures { IsFree D.moment shared.now seat.new }
{
    let mut made = 0u64;
    for place in 0..count.saturating_mul(2) {
        if let Ok(text) = renewal(alloc, place) {
            let answer = commit_once(rt, alloc, shared, seat, text.as_bytes());
            made = made.saturating_add(u64::from(is_made(answer)));
        }
    }
    made
}

/// What a session has that began to have a pin, or not.
fn begun(found: Result<Pinned, PinFault>) -> (Hold, Answer)
    ensures ok { IfOk found (λ pinned. result.0 ≡ hold.Pinned pinned) }
    ensures err { OnErr found (result.0 ≡ hold.Free) }
{
    match found {
        Ok(pinned) => {
            let place = pinned.place;
            (Hold::Pinned(pinned), Answer::At { place })
        }
        Err(PinFault::HistoryFull { entries }) => (Hold::Free, Answer::HistoryFull { entries }),
        Err(PinFault::Memory) => (Hold::Free, Answer::Memory),
    }
}

/// A step of a session that has no pin.
fn free_step<D: Disk, R: Threads + Wait + Sync>(
    rt: &R,
    alloc: Global,
    shared: &Shared<D>,
    seat: &mut Seat<D>,
    step: Step<'_>,
) -> (Hold, Answer)
    requires untold { IsUntold D.moment shared.now }
    requires free { IsFree D.moment shared.now seat.old }
    ensures seat { IsSeatOf shared.now seat.new × IsIdle seat.new }
    ensures held { IsHeld D.moment shared.now seat.new result.0 }
{
    match step {
        Step::Pin => begun(shared.pin(rt, seat)),
        Step::Renew(count) => {
            let made = renewed(rt, alloc, shared, seat, count);
            (Hold::Free, Answer::Commits(made))
        }
        Step::Versions(_) => (Hold::Free, Answer::Unknown),
        _ => (Hold::Free, Answer::HasNoPin),
    }
}

/// What a session that has a pin is answered to a step that does nothing under it.
fn idle_answer(step: Step<'_>) -> Answer {
    match step {
        Step::Pin | Step::Renew(_) => Answer::HasPin,
        Step::Change(_) => Answer::HasUsed,
        _ => Answer::Unknown,
    }
}

/// A step of a session that used its pin.
fn used_step<D: Disk, R: Wait>(
    rt: &R,
    alloc: Global,
    shared: &Shared<D>,
    seat: &mut Seat<D>,
    pinned: Pinned,
    step: Step<'_>,
) -> (Hold, Answer)
    requires seat { IsSeatOf shared.now seat.old × IsIdle seat.old }
    requires pin { IsPinOf D.moment shared.now seat.old pinned }
    ensures seat { IsSeatOf shared.now seat.new × IsIdle seat.new }
    ensures held { IsHeld D.moment shared.now seat.new result.0 }
{
    match step {
        Step::Unpin => {
            shared.unpin(rt, seat, pinned);
            (Hold::Free, Answer::Done)
        }
        Step::Cells(word) => {
            let answer = told_cells(rt, alloc, shared, seat, &pinned, word);
            (Hold::Tried(pinned), answer)
        }
        other => (Hold::Tried(pinned), idle_answer(other)),
    }
}

/// A step of a session that didn't use its pin yet.
fn pinned_step<D: Disk, R: Threads + Wait + Sync>(
    rt: &R,
    alloc: Global,
    shared: &Shared<D>,
    seat: &mut Seat<D>,
    pinned: Pinned,
    step: Step<'_>,
) -> (Hold, Answer)
    requires untold { IsUntold D.moment shared.now }
    requires seat { IsSeatOf shared.now seat.old × IsIdle seat.old }
    requires pin { IsUntried D.moment shared.now seat.old pinned }
    ensures seat { IsSeatOf shared.now seat.new × IsIdle seat.new }
    ensures held { IsHeld D.moment shared.now seat.new result.0 }
{
    match step {
        Step::Change(text) => {
            let found = changed(rt, alloc, shared, seat, &pinned, text.as_bytes());
            match found {
                Ok(answer) => (Hold::Tried(pinned), answer),
                Err(answer) => (Hold::Pinned(pinned), answer),
            }
        }
        Step::Unpin | Step::Cells(_) => used_step(rt, alloc, shared, seat, pinned, step),
        other => (Hold::Pinned(pinned), idle_answer(other)),
    }
}

impl<D: Disk> Visitor<D> {
    /// What a step of the session is answered.
    pub fn answer<R: Threads + Wait + Sync>(
        &mut self,
        rt: &R,
        alloc: Global,
        shared: &Shared<D>,
        step: Step<'_>,
    ) -> Answer
        requires untold { IsUntold D.moment shared.now }
        requires here { IsVisitor D.moment shared.now self.old }
        ensures { IsVisitor D.moment shared.now self.new }
    {
        let held = replace(&mut self.held, Hold::Free);
        let (held, answer) = match held {
            Hold::Free => free_step(rt, alloc, shared, &mut self.seat, step),
            Hold::Pinned(pinned) => pinned_step(rt, alloc, shared, &mut self.seat, pinned, step),
            Hold::Tried(pinned) => used_step(rt, alloc, shared, &mut self.seat, pinned, step),
        };
        self.held = held;
        answer
    }
}
