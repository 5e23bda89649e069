//! Two sessions on threads, beside one that reaps.
ghost use Rattle.std.specs.Prelude.{◌≡◌, [], false, length, vec_len, All};
ghost use Rattle.snapshot_manager.specs.Seats.{seats_in_all, AreIdleSeats, IsIdle, IsSeatOf};
ghost use Rattle.test_stores.specs.Visits.{IsFree, IsUntold};

use afl_outside::Disk;
use cell_values::{List, Memory};
use snapshot_manager::{Seat, Shared, Store};
use std::alloc::{AllocError, Global};
use std::sync::Wait;
use std::sync::atomic::{AtomicU32, Ordering};
use std::thread;
use std::thread::Threads;
use test_disks::let_go_store;
use test_stores::commit_once;
use turn_lock::Ring;

/// How many sessions there are.
const SESSIONS: u32 = 2;

/// How many threads there are: those of the sessions, and the reaper's.
const THREADS: usize = 3;

/// The name of the array that a session stores.
fn array_of(session: u32) -> &'static str {
    match session {
        0 => "A",
        _ => "B",
    }
}

/// In each round of so many commits there is one removal of all versions but the newest.
const ROUND: u32 = 100;

/// The place of the removal in its round, from 0.
const REMOVAL: u32 = 90;

/// The commit of a session behind so many. Version k of its array holds k.
fn statement_behind(alloc: Global, name: &str, commits: u32) -> Result<String, AllocError> {
    let removals = commits / ROUND + u32::from(commits % ROUND > REMOVAL);
    let stored = commits.saturating_sub(removals);
    if commits % ROUND == REMOVAL {
        format!(in alloc; "remove_versions({name}, {stored})")
    } else {
        format!(in alloc; "store(build(<v:int64>[i=0:0,1,0], {stored}+1), {name})")
    }
}

/// Makes so many commits of the session's array. The last session that is done with that closes the bell.
fn commit_often<D: Disk, R: Threads + Wait + Sync>(
    rt: &R,
    alloc: Global,
    shared: &Shared<D>,
    working: &AtomicU32,
    seat: &mut Seat<D>,
    count: u32,
)
    requires untold { IsUntold D.moment shared.now }
    requires free { IsFree D.moment shared.now seat.old }
    ensures { IsSeatOf shared.now seat.new × IsIdle seat.new }
{
    let name = array_of(seat.session());
    for commits in 0..count {
        match statement_behind(alloc, name, commits) {
            Ok(text) => drop(commit_once(rt, alloc, shared, seat, text.as_bytes())),
            Err(AllocError) => {}
        }
    }
    if working.fetch_sub(1, Ordering::SeqCst) == 1 {
        shared.close_bell(rt);
    }
}

/// Reaps whenever the bell was rung, until it is closed.
fn keep<D: Disk, R: Wait>(rt: &R, shared: &Shared<D>, seat: &mut Seat<D>)
    requires { IsSeatOf shared.now seat.old × IsIdle seat.old }
    ensures { IsSeatOf shared.now seat.new × IsIdle seat.new }
{
    for _ in rt.forever() {
        match shared.await_bell(rt) {
            Ring::Rung => {
                let _ = shared.reap(rt, seat);
            }
            Ring::Closed => return,
        }
    }
}

/// The sessions make their commits, and the reaper runs beside them, each on a thread of its own. The first seat is the reaper's: where no thread
/// can be made for it, it comes after all others, and finds the bell closed.
fn work_all<D: Disk + Send, R: Threads + Wait + Sync>(
    rt: &R,
    alloc: Global,
    shared: &Shared<D>,
    working: &AtomicU32,
    seats: &mut [Seat<D>],
    count: u32,
)
    requires untold { IsUntold D.moment shared.now }
    requires free { All (IsFree D.moment shared.now) seats.old }
    ensures seats { AreIdleSeats shared.now seats.new }
    ensures count { length seats.new ≡ length seats.old }
{
    let each = |place: usize, seat: &mut Seat<D>|
        requires { IsUntold D.moment shared.now × IsFree D.moment shared.now seat.now }
        ensures { IsSeatOf shared.entry.now seat.exit.now × IsIdle seat.exit.now }
    {
        match place {
            0 => keep(rt, shared, seat),
            _ => commit_often(rt, alloc, shared, working, seat, count),
        }
    };
    thread::for_each_mut(rt, seats, THREADS, &each);
}

/// The seats, once the sessions and the reaper have done their work.
fn worked<D: Disk + Send, R: Threads + Wait + Sync>(
    rt: &R,
    alloc: Global,
    shared: &Shared<D>,
    mut seats: Vec<Seat<D>>,
    count: u32,
) -> Vec<Seat<D>>
    requires untold { IsUntold D.moment shared.now }
    requires free { All (IsFree D.moment shared.now) seats.items }
    ensures seats { AreIdleSeats shared.now result.items }
    ensures count { vec_len result ≡ vec_len seats }
{
    let working = AtomicU32::new(SESSIONS);
    seats.reverse();
    work_all(rt, alloc, shared, &working, seats.as_mut_slice(), count);
    seats
}

/// The store, once the sessions and the reaper have given their seats back.
fn stored_by<D: Disk + Send, R: Threads + Wait + Sync>(
    rt: &R,
    alloc: Global,
    shared: Shared<D>,
    seats: List<Seat<D>>,
    count: u32,
) -> Store<D>
    requires untold { IsUntold D.moment shared }
    requires count { length seats ≡ seats_in_all shared }
    requires free { All (IsFree D.moment shared) seats }
{
    let back = worked(rt, alloc, &shared, seats.into_vec(), count);
    shared.finish(List::from_vec(back))
}

/// Two sessions make so many commits each, on a thread of its own. The store comes back.
pub(crate) fn stored_by_two<D: Disk + Send + Drop, R: Threads + Wait + Sync>(
    rt: &R,
    alloc: Global,
    store: Store<D>,
    count: u32,
) -> Result<Store<D>, Memory>
    requires entries { store.ledger.entries ≡ [] }
    requires notes { store.ledger.notes ≡ [] }
    requires untold { (D.moment store.opened.value.disk).state.honest ≡ false }
{
    match Shared::new(alloc, store, SESSIONS) {
        Ok((shared, seats)) => Ok(stored_by(rt, alloc, shared, seats, count)),
        Err((Memory, store)) => {
            let_go_store(store);
            Err(Memory)
        }
    }
}
