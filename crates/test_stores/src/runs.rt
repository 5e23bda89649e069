//! A store that three sessions share, on one thread.
ghost use Rattle.std.specs.Prelude.{◌≡◌, ◌≤◌, [], length, vec_capacity, All};
ghost use Rattle.snapshot_manager.specs.Seats.{seats_in_all};
ghost use Rattle.test_quiet.specs.Silent.{silent_moment};
ghost use Rattle.test_stores.specs.Visits.{IsFree, IsUntold};
ghost use Rattle.test_stores.specs.Runs.{IsRun};

use crate::seats::{taken, with_seat};
use crate::tally::tallied;
use crate::visitors::Visitor;
use cell_values::{List, Memory};
use snapshot_manager::{Seat, Shared};
use std::alloc::Global;
use std::sync::Wait;
use std::thread::Threads;
use test_kit::Transcript;
use test_quiet::{Answer, Hold, SilentDisk, Step, step_of};

/// A store that three sessions share.
pub struct Run {
    pub shared: Shared<SilentDisk>,
    pub first: Visitor<SilentDisk>,
    pub second: Visitor<SilentDisk>,
    pub third: Visitor<SilentDisk>,
    /// The seat for reaps.
    pub reaper: Seat<SilentDisk>,
    /// Room for all seats, so that the store can be taken back.
    pub room: Vec<Seat<SilentDisk>>,
}

/// What a line asks for.
#[derive(Clone, Copy)]
enum Request<'a> {
    Step(u32, Step<'a>),
    Reap,
    Nothing,
}

fn request_of(line: &str) -> Request<'_> {
    match step_of(line) {
        Some((session, step)) => Request::Step(session, step),
        None if line == "reap" => Request::Reap,
        None => Request::Nothing,
    }
}

fn reap_answer(comes: Result<bool, Memory>) -> Answer {
    match comes {
        Ok(comes) => Answer::Reaped(comes),
        Err(Memory) => Answer::Memory,
    }
}

/// What a line is answered, as `pin 0`, `change 0 TEXT` or `reap`, by which all pages become free that nobody can name.
pub fn answer_line<R: Threads + Wait + Sync>(
    rt: &R,
    alloc: Global,
    run: &mut Run,
    line: &str,
) -> Answer
    requires { IsRun run.old }
    ensures { IsRun run.new }
{
    match request_of(line) {
        Request::Step(0, step) => run.first.answer(rt, alloc, &run.shared, step),
        Request::Step(1, step) => run.second.answer(rt, alloc, &run.shared, step),
        Request::Step(2, step) => run.third.answer(rt, alloc, &run.shared, step),
        Request::Reap => reap_answer(run.shared.reap(rt, &mut run.reaper)),
        Request::Step(..) | Request::Nothing => Answer::Unknown,
    }
}

/// The sessions take their seats at a store that wasn't used yet.
pub fn seated(
    shared: Shared<SilentDisk>,
    mut seats: List<Seat<SilentDisk>>,
    room: Vec<Seat<SilentDisk>>,
) -> Run
    requires untold { IsUntold silent_moment shared }
    requires all { seats_in_all shared ≡ 4 }
    requires count { length seats ≡ 4 }
    requires free { All (IsFree silent_moment shared) seats }
    requires room { (room.items ≡ []) × (4 ≤ vec_capacity room) }
    ensures { IsRun result }
{
    let reaper = taken(&shared, &mut seats);
    let third = taken(&shared, &mut seats);
    let second = taken(&shared, &mut seats);
    let first = taken(&shared, &mut seats);
    Run {
        shared,
        first: Visitor {
            seat: first,
            held: Hold::Free,
        },
        second: Visitor {
            seat: second,
            held: Hold::Free,
        },
        third: Visitor {
            seat: third,
            held: Hold::Free,
        },
        reaper,
        room,
    }
}

/// Takes the store back from all, and adds what its history tells.
pub fn push_finished(out: &mut Transcript, run: Run)
    requires { IsRun run }
{
    let Run {
        shared,
        first,
        second,
        third,
        reaper,
        room,
    } = run;
    let Visitor { seat, .. } = first;
    let one = with_seat(&shared, room, seat);
    let Visitor { seat, .. } = second;
    let two = with_seat(&shared, one, seat);
    let Visitor { seat, .. } = third;
    let three = with_seat(&shared, two, seat);
    let all = with_seat(&shared, three, reaper);
    drop(tallied(out, shared.finish(List::from_vec(all)), 3));
}
