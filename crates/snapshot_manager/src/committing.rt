//! Commits of a store that is shared.
ghost use Rattle.std.specs.Prelude.{◌≡◌, ◌+◌, ◌-◌, ◌^◌, ◌<◌, [], false, length, IfErr, IfOk, IfSome, OnErr, OnOk};
ghost use Rattle.array_store.specs.Changes.{AreValid, ComesWith};
ghost use Rattle.plan_changes.specs.Databases.{Database};
ghost use Rattle.plan_changes.specs.Stored.{HasItsNames};
ghost use Rattle.plan_changes.specs.Typed.{IsTypedFor};
ghost use Rattle.event_core.specs.Bases.{sequence_at};
ghost use Rattle.event_core.specs.History.{names_at};
ghost use Rattle.store_ledger.specs.Ledger.{is_noted, is_tried};
ghost use Rattle.array_store.specs.At.{standing};
ghost use Rattle.array_store.specs.Calls.{database_with, history_at};
ghost use Rattle.array_store.specs.Events.{events};
ghost use Rattle.array_store.specs.Standings.{base_of, BeganAs};
ghost use Rattle.array_store.specs.Prepared.{MayBeMade};
ghost use Rattle.array_store.specs.Starts.{start_of};
ghost use Rattle.array_store.specs.Causes.{FitsAfter, IsUncommitted};
ghost use Rattle.snapshot_manager.specs.Commits.{IfDone, IfStale, OnEnd};
ghost use Rattle.snapshot_manager.specs.Inner.Trying.{MayTry};
ghost use Rattle.array_store.specs.Tries.{is_fresh_since, MakesCommit, MakesHere, TriesCommit, TriesHere};
ghost use Rattle.snapshot_manager.specs.Seats.{ledger_seen, read_count, seen, session_of, start, store_of};
ghost use Rattle.snapshot_manager.specs.Seats.{store_seen, HasTurn, HoldsPin, IsIdle, IsSameSeat, IsSeatOf};
ghost use Rattle.array_store.specs.Told.{IsTold};
ghost use Rattle.array_store.specs.Turns.{Adds};

use crate::seat::Seat;
use crate::shared::{Shared, StoreTurn};
use afl_outside::Disk;
use array_geom::Changed;
use array_store::{CommitFault, commit, give_up};
use plan_changes::Change;
use std::alloc::Global;
use std::sync::Wait;
use store_ledger::Pinned;

/// What came of a commit that wasn't refused.
pub enum Commit<D: Disk> {
    /// It is made, and its entry has this place.
    Done { place: u64 },
    /// The change isn't fresh any more. The turn is still held, until `end_turn`.
    Stale(StoreTurn<D>),
}

impl<D: Disk> Shared<D> {
    /// Commits a change that was computed under the session's pin, with the chunks that it writes, and rings the bell. It is the first that
    /// is tried under the pin.
    pub fn commit<R: Wait>(
        &self,
        rt: &R,
        alloc: Global,
        seat: &mut Seat<D>,
        pinned: &Pinned,
        change: Change,
        changed: Option<Changed>,
    ) -> Result<Commit<D>, CommitFault>
        requires seat { IsSeatOf self.now seat.old × IsIdle seat.old }
        requires pin { HoldsPin D.moment self.now seat.old pinned.now }
        requires tried { is_noted is_tried (ledger_seen D.moment self.now seat.old) pinned.now.session ≡ false }
        requires named { HasItsNames change }
        requires typed { IsTypedFor pinned.now.names change }
        requires comes { ComesWith change changed }
        requires valid { IfSome changed AreValid }
        requires told { (db : Database) → BeganAs (D.moment (start D.moment self.now).opened.disk).state db
            → MayBeMade (database_with db (store_seen D.moment self.now seat.old) pinned.now.place) change changed }
        ensures seat { IsSeatOf self.now seat.new }
        ensures same { IsSameSeat seat.old seat.new }
        ensures reads { read_count seat.new ≡ read_count seat.old }
        ensures idle { OnEnd (IsIdle seat.new) result }
        ensures pin { HoldsPin D.moment self.now seat.new pinned.now }
        ensures done { IfDone (λ _. MakesCommit (start D.moment self.now) pinned.now change (seen seat.old) (seen seat.new)) result }
        ensures place { IfDone (λ place. place + 1 ≡ length (ledger_seen D.moment self.now seat.new).entries) result }
        ensures typed { IfDone (λ place. IsTypedFor
            (names_at (start D.moment self.now).base (history_at (store_seen D.moment self.now seat.new) place)) change) result }
        ensures may { IfDone (λ place. (db : Database) → BeganAs (D.moment (start D.moment self.now).opened.disk).state db
            → MayBeMade (database_with db (store_seen D.moment self.now seat.new) place) change changed) result }
        ensures next { IfDone (λ place. sequence_at (base_of (store_seen D.moment self.now seat.new))
            (history_at (store_seen D.moment self.now seat.new) place) < 2 ^ 64 - 1) result }
        ensures fits { IfDone (λ place. FitsAfter D.moment (store_seen D.moment self.now seat.new)
            (history_at (store_seen D.moment self.now seat.new) place) change) result }
        ensures stale { IfStale (λ _. is_fresh_since pinned.now change (ledger_seen D.moment self.now seat.new) ≡ false) result }
        ensures found { IfStale (λ _. Adds (session_of seat.old) [] (seen seat.old) (seen seat.new)) result }
        ensures turn { IfStale (λ turn. HasTurn seat.new turn) result }
        ensures began { IfStale (λ turn. start_of (standing D.moment (store_of turn)) ≡ start D.moment self.now) result }
        ensures events { IfStale (λ turn. events (standing D.moment (store_of turn)) ≡ seen seat.new) result }
        ensures held { IfStale (λ turn. IsTold (start D.moment self.now) (seen seat.new) (standing D.moment (store_of turn))) result }
        ensures err { OnErr result (TriesCommit (start D.moment self.now) pinned.now change [] (seen seat.old) (seen seat.new)) }
        ensures cause { IfErr result (IsUncommitted D.moment pinned.now.session change (store_seen D.moment self.now seat.new)) }
    {
        let mut turn = self.begin(rt, seat);
        let is_fresh = turn.value().fresh(pinned, &change);
        if is_fresh {
            match self.commit_fresh(alloc, seat, pinned, turn, change, changed) {
                Ok(place) => {
                    self.bell.ring(rt);
                    Ok(Commit::Done { place })
                }
                Err(fault) => Err(fault),
            }
        } else {
            give_up(change, changed);
            Ok(Commit::Stale(turn))
        }
    }

    // Commits a change in a turn, which then ends.
    fn commit_fresh(
        &self,
        alloc: Global,
        seat: &mut Seat<D>,
        pinned: &Pinned,
        mut turn: StoreTurn<D>,
        change: Change,
        changed: Option<Changed>,
    ) -> Result<u64, CommitFault>
        requires { MayTry D.moment self.now seat.old pinned.now turn change changed }
        ensures seat { IsSeatOf self.now seat.new × IsIdle seat.new }
        ensures same { IsSameSeat seat.old seat.new }
        ensures reads { read_count seat.new ≡ read_count seat.old }
        ensures done { OnOk result (MakesHere (start D.moment self.now) pinned.now.session change (seen seat.old) (seen seat.new)) }
        ensures place { IfOk result (λ place. place + 1 ≡ length (ledger_seen D.moment self.now seat.new).entries) }
        ensures typed { IfOk result (λ place. IsTypedFor
            (names_at (start D.moment self.now).base (history_at (store_seen D.moment self.now seat.new) place)) change) }
        ensures may { IfOk result (λ place. (db : Database) → BeganAs (D.moment (start D.moment self.now).opened.disk).state db
            → MayBeMade (database_with db (store_seen D.moment self.now seat.new) place) change changed) }
        ensures next { IfOk result (λ place. sequence_at (base_of (store_seen D.moment self.now seat.new))
            (history_at (store_seen D.moment self.now seat.new) place) < 2 ^ 64 - 1) }
        ensures fits { IfOk result (λ place. FitsAfter D.moment (store_seen D.moment self.now seat.new)
            (history_at (store_seen D.moment self.now seat.new) place) change) }
        ensures err { OnErr result (TriesHere (start D.moment self.now) pinned.now.session change [] (seen seat.old) (seen seat.new)) }
        ensures cause { IfErr result (IsUncommitted D.moment pinned.now.session change (store_seen D.moment self.now seat.new)) }
    {
        let answer = commit(alloc, turn.value(), pinned.session, change, changed);
        self.end(seat, turn);
        answer
    }
}
