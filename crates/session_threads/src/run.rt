//! All sessions, from their streams to their reports.
ghost use Rattle.std.specs.Prelude.{◌≡◌, ◌≤◌, ◌+◌, [], length, slice_get, vec_capacity, IfErr, IfOk, All, List, Some};
ghost use Rattle.afl_lexer.specs.Inner.Standing.{StandsAfter};
ghost use Rattle.store_state.specs.At.{standing};
ghost use Rattle.store_state.specs.Events.{events};
ghost use Rattle.snapshot_manager.specs.Starts.{start_of};
ghost use Rattle.snapshot_manager.specs.Seats.{seats_in_all, start, AreNewSeats};
ghost use Rattle.afl_session.specs.Style.{Style};
ghost use Rattle.session_threads.specs.Sessions.{AreOfSessions, AreSessionsOf};
ghost use Rattle.session_threads.specs.Inner.Desks.{AreDone, AreEmptied, AreSeated, HasEnded, IsReaper};
ghost use Rattle.session_threads.specs.Inner.Rooms.{HasRoom};
ghost use Rattle.run_opening.specs.declared.reports.reports.Streams.{Streams};

use crate::desk::{Desk, SessionDesk};
use crate::reaper::work_beside;
use crate::room::{Room, opened};
use afl_outside::{Disk, Gate, Sink, Source};
use afl_session::{Options, SessionReport};
use cell_values::{List, Memory};
use run_opening::Streams;
use snapshot_manager::{Seat, Shared, Store};
use std::alloc::Global;
use std::sync::Wait;
use std::thread::Threads;

/// Answers a script for each of these streams over a store in which nothing was done yet, each session on a thread of its own, and
/// reaps beside them. Without memory nothing is done, and all comes back.
pub fn run_sessions<
    D: Disk + Send + Drop,
    S: Source + Send + Drop,
    K: Sink + Send + Drop,
    R: Threads + Wait + Sync,
    G: Gate,
>(
    rt: &R,
    alloc: Global,
    store: Store<D>,
    streams: List<Streams<S, K>>,
    options: &Options,
    gate: &G,
) -> Result<(Store<D>, List<SessionReport<S, K>>), (Memory, Store<D>, List<Streams<S, K>>)>
    requires count { (1 ≤ length streams) × (length streams ≤ 16) }
    requires entries { store.ledger.entries ≡ [] }
    requires notes { store.ledger.notes ≡ [] }
    requires begun { All (λ own. StandsAfter [] own.splitter) streams }
    requires workers { (1 ≤ options.now.workers) × (options.now.workers ≤ 64) }
    ensures start { IfOk result (λ run. start_of (standing D.moment run.0) ≡ start_of (standing D.moment store)) }
    ensures reports { IfOk result (λ run. length run.1 ≡ length streams) }
    ensures each { IfOk result (λ run. AreSessionsOf options.now.style D.moment S.state K.state (start_of (standing D.moment store)) streams run.1
        (events (standing D.moment run.0))) }
    ensures others { IfOk result (λ run. AreOfSessions (length streams) (events (standing D.moment run.0))) }
    ensures err { IfErr result (λ failed. (failed.1 ≡ store) × (failed.2 ≡ streams)) }
{
    match opened(alloc, store, streams.len()) {
        Ok((shared, seats, room)) => Ok(run_shared(
            rt, alloc, shared, seats, streams, options, gate, room,
        )),
        Err((want, store)) => Err((want, store, streams)),
    }
}

// The same, over a store that is shared.
fn run_shared<
    D: Disk + Send + Drop,
    S: Source + Send + Drop,
    K: Sink + Send + Drop,
    R: Threads + Wait + Sync,
    G: Gate,
>(
    rt: &R,
    alloc: Global,
    shared: Shared<D>,
    seats: List<Seat<D>>,
    streams: List<Streams<S, K>>,
    options: &Options,
    gate: &G,
    room: Room<Seat<D>, Streams<S, K>, SessionReport<S, K>>,
) -> (Store<D>, List<SessionReport<S, K>>)
    requires seats { AreNewSeats shared seats }
    requires count { (length seats ≡ length streams + 1) × (seats_in_all shared ≡ length streams + 1) }
    requires begun { All (λ own. StandsAfter [] own.splitter) streams }
    requires workers { (1 ≤ options.now.workers) × (options.now.workers ≤ 64) }
    requires room { HasRoom (length streams) room }
    ensures start { start_of (standing D.moment result.0) ≡ start D.moment shared }
    ensures reports { length result.1 ≡ length streams }
    ensures each { AreSessionsOf options.now.style D.moment S.state K.state (start D.moment shared) streams result.1 (events (standing D.moment result.0)) }
    ensures others { AreOfSessions (length streams) (events (standing D.moment result.0)) }
{
    let Room {
        desks,
        seats: room,
        reports,
    } = room;
    let (desks, own) = seated(seats, streams, desks);
    let (desks, own) = work_beside(rt, alloc, &shared, options, gate, desks, own);
    gathered(shared, own, desks, room, reports)
}

// A desk for each session, with the seat of its number and the streams of its place. The last seat is left over.
fn seated<P: Drop, W: Drop, M: Drop>(
    mut seats: List<P>,
    mut streams: List<W>,
    mut room: Vec<Desk<P, W, M>>,
) -> (Vec<Desk<P, W, M>>, P)
    requires count { length seats ≡ length streams + 1 }
    requires room { (room.items ≡ []) × (length streams ≤ vec_capacity room) }
    ensures count { length result.0.items ≡ length streams }
    ensures desks { AreSeated seats streams result.0.items }
    ensures own { slice_get seats (length streams) ≡ Some result.1 }
{
    let count = streams.len();
    for _ in 0..count {
        let seat = seats.remove(0);
        let first = streams.remove(0);
        room.push_reserved(Desk::Waiting {
            seat,
            streams: first,
        });
    }
    let own = seats.remove(0);
    (room, own)
}

// Takes the store back from the seats, of which the reaper's is the last, once all sessions have ended. It takes no memory.
fn gathered<D: Disk + Drop, S: Source + Drop, K: Sink + Drop>(
    shared: Shared<D>,
    own: Seat<D>,
    desks: Vec<SessionDesk<D, S, K>>,
    seats: Vec<Seat<D>>,
    reports: Vec<SessionReport<S, K>>,
) -> (Store<D>, List<SessionReport<S, K>>)
    requires count { seats_in_all shared ≡ length desks.items + 1 }
    requires own { IsReaper shared (length desks.items) own }
    requires desks { (style : Style) × (streams : List (Streams S K)) × AreDone style D.moment S.state K.state shared streams desks.items }
    requires seats { (seats.items ≡ []) × (length desks.items + 1 ≤ vec_capacity seats) }
    requires reports { (reports.items ≡ []) × (length desks.items ≤ vec_capacity reports) }
    ensures start { start_of (standing D.moment result.0) ≡ start D.moment shared }
    ensures count { length result.1 ≡ length desks.items }
    ensures each { (style : Style) (streams : List (Streams S K)) → length streams ≡ length desks.items
        → AreDone style D.moment S.state K.state shared streams desks.items
        → AreSessionsOf style D.moment S.state K.state (start D.moment shared) streams result.1 (events (standing D.moment result.0)) }
    ensures others { AreOfSessions (length desks.items) (events (standing D.moment result.0)) }
{
    let (mut seats, reports) = emptied(desks, seats, reports);
    seats.push_reserved(own);
    (shared.finish(List::from_vec(seats)), reports)
}

// The seats and the reports of sessions that have ended, in order.
fn emptied<P: Drop, W: Drop, M: Drop>(
    desks: Vec<Desk<P, W, M>>,
    mut seats: Vec<P>,
    mut reports: Vec<M>,
) -> (Vec<P>, List<M>)
    requires ended { All (λ desk. HasEnded desk) desks.items }
    requires seats { (seats.items ≡ []) × (length desks.items + 1 ≤ vec_capacity seats) }
    requires reports { (reports.items ≡ []) × (length desks.items ≤ vec_capacity reports) }
    ensures seats { (length result.0.items ≡ length desks.items) × (length desks.items + 1 ≤ vec_capacity result.0) }
    ensures reports { length result.1 ≡ length desks.items }
    ensures emptied { AreEmptied desks.items result.0.items result.1 }
{
    let mut desks = List::from_vec(desks);
    let count = desks.len();
    for _ in 0..count {
        let (seat, report) = desks.remove(0).into_done();
        seats.push_reserved(seat);
        reports.push_reserved(report);
    }
    (seats, List::from_vec(reports))
}
