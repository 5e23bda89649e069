//! Threads that append to one log side by side.
ghost use Rattle.std.specs.Prelude.{◌≡◌, length};
ghost use Rattle.test_commits.specs.Entries.{owner_of};
ghost use Rattle.turn_lock.specs.Owners.{ExtendsByOwn};
ghost use Rattle.turn_lock.specs.Seats.{seat_count, IsSeatOf, IsIdle, AreIdleSeats, AreNewSeats};

use crate::entries::{Entry, Log, append};
use cell_values::{List, Memory};
use std::sync::Wait;
use std::thread;
use std::thread::Threads;
use test_kit::{Transcript, push_numbered, push_word};
use turn_lock::{TurnLock, TurnSeat};

/// What each of four seats appends, the numbers from 0 on, and how that is told.
#[derive(Clone, Copy)]
pub(crate) struct Work {
    count: u64,
    /// Whether a seat appends a number only where its own last entry has the one before.
    is_marked: bool,
    before: &'static str,
    between: &'static str,
    whole: &'static str,
    missing: &'static str,
}

/// Turns that mark themselves: a mark is missing where a seat did not find its own last one.
pub(crate) const MARKS: Work = Work {
    count: 10_000,
    is_marked: true,
    before: "start ",
    between: ", marks ",
    whole: ": each turn, in order\n",
    missing: ": a turn is missing\n",
};

/// Entries: one is missing where an append found no memory.
pub(crate) const ENTRIES: Work = Work {
    count: 1_000,
    is_marked: false,
    before: "log ",
    between: ", entries ",
    whole: ": 0 to 999, in order\n",
    missing: ": an entry is missing\n",
};

/// What a seat's last entry has.
fn last_of(entries: &[Entry], by: u32) -> Option<u64> {
    for entry in entries.iter().rev() {
        if entry.by == by {
            return Some(entry.content);
        }
    }
    None
}

/// Adds an entry of a seat, if the seat's own last entry is of its turn before.
fn mark(log: &mut Log, by: u32, turn: u64)
    ensures number { log.new.number ≡ log.old.number }
    ensures entries { ExtendsByOwn owner_of by log.old.entries log.new.entries }
{
    if last_of(log.entries.as_slice(), by) == turn.checked_sub(1) {
        let _ = log.entries.push(Entry { by, content: turn });
    }
}

fn take_turn<R: Wait>(
    rt: &R,
    lock: &TurnLock<Log>,
    seat: &mut TurnSeat<Log>,
    is_marked: bool,
    number: u64,
)
    requires { IsSeatOf lock.now seat.old × IsIdle seat.old }
    ensures { IsSeatOf lock.now seat.new × IsIdle seat.new }
{
    if is_marked {
        let mut turn = lock.enter(rt, seat);
        mark(turn.value(), seat.number(), number);
        lock.leave(seat, turn);
    } else {
        let _ = append(rt, lock, seat, number);
    }
}

fn take_turns<R: Wait>(rt: &R, lock: &TurnLock<Log>, seat: &mut TurnSeat<Log>, work: &Work)
    requires { IsSeatOf lock.now seat.old × IsIdle seat.old }
    ensures { IsSeatOf lock.now seat.new × IsIdle seat.new }
{
    for number in 0..work.count {
        take_turn(rt, lock, seat, work.is_marked, number);
    }
}

fn take_all<R: Threads + Wait + Sync>(
    rt: &R,
    lock: &TurnLock<Log>,
    seats: &mut [TurnSeat<Log>],
    work: &Work,
)
    requires { AreIdleSeats lock.now seats.old }
    ensures { AreIdleSeats lock.now seats.new }
{
    let each = |_: usize, seat: &mut TurnSeat<Log>|
        requires { IsSeatOf lock.now seat.now × IsIdle seat.now }
        ensures { IsSeatOf lock.entry.now seat.exit.now × IsIdle seat.exit.now }
    { take_turns(rt, lock, seat, work) };
    thread::for_each_mut(rt, seats, 4, &each);
}

/// The log, once four threads have appended their entries.
fn worked<R: Threads + Wait + Sync>(
    rt: &R,
    lock: TurnLock<Log>,
    seats: List<TurnSeat<Log>>,
    work: &Work,
) -> Log
    requires count { length seats ≡ seat_count lock }
    requires seats { AreNewSeats lock seats }
{
    let mut seats = seats.into_vec();
    take_all(rt, &lock, seats.as_mut_slice(), work);
    lock.close(List::from_vec(seats))
}

/// Whether the entries of a seat have all its numbers, in order, as it is told.
fn told_of(log: &Log, by: u32, work: &Work) -> &'static str {
    let mut next = 0u64;
    for entry in log.entries.as_slice() {
        if entry.by == by && entry.content == next {
            next = next.saturating_add(1);
        }
    }
    if next == work.count {
        work.whole
    } else {
        work.missing
    }
}

/// Adds how many entries there are, and whether those of each seat are all there, in order.
fn push_log(out: &mut Transcript, log: &Log, work: &Work) {
    push_numbered(out, work.before, log.number, work.between);
    push_numbered(out, "", log.entries.len() as u64, "\n");
    for by in 0..4u32 {
        push_numbered(out, "seat ", u64::from(by), told_of(log, by, work));
    }
}

/// Adds what the entries of four threads leave.
pub(crate) fn push_turns<R: Threads + Wait + Sync>(rt: &R, out: &mut Transcript, work: &Work) {
    let alloc = out.alloc();
    match TurnLock::new(alloc, Log::new(alloc, 7), 4) {
        Ok((lock, seats)) => {
            let log = worked(rt, lock, seats, work);
            push_log(out, &log, work);
        }
        Err((Memory, log)) => {
            drop(log);
            push_word(out, "no memory\n");
        }
    }
}
