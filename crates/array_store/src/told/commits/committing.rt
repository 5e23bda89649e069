//! Commits of a store.
ghost use Rattle.std.specs.Prelude.{◌≡◌, ◌+◌, ◌-◌, ◌^◌, ◌<◌, Option, [], false, length, IfOk, IfErr, OnOk, OnErr, IsTrue, MatchResult};
ghost use Rattle.array_geom.specs.declared.chunk.Changed.{Changed};
ghost use Rattle.plan_changes.specs.Databases.{Database};
ghost use Rattle.plan_changes.specs.Typed.{IsTypedFor};
ghost use Rattle.event_core.specs.Allowed.{is_pinned};
ghost use Rattle.event_core.specs.Bases.{sequence_at};
ghost use Rattle.event_core.specs.History.{names_at};
ghost use Rattle.store_ledger.specs.Ledger.{history, is_noted, is_tried};
ghost use Rattle.prepared_commits.specs.At.{standing};
ghost use Rattle.prepared_commits.specs.Calls.{database_with, history_at, NotesFault};
ghost use Rattle.prepared_commits.specs.Standings.{base_of, BeganAs};
ghost use Rattle.prepared_commits.specs.Prepared.{IsAsked, IsPreparedFor, MayBeMade};
ghost use Rattle.store_sealing.specs.Steps.{sealed_ledger};
ghost use Rattle.array_store.specs.Growth.{AddsFault};
ghost use Rattle.array_store.specs.Sealing.{AddsCommit};
ghost use Rattle.array_store.specs.Causes.{refused_at, FitsAfter, IsStoppedSince, IsUncommitted};
ghost use Rattle.array_store.specs.Tried.{AddsSealed, AddsTried};

use crate::store::Store;
use crate::told::commits::fault::CommitFault;
use afl_outside::Disk;
use array_geom::Changed;
use plan_changes::{Change, let_go_change};
use prepared_commits::{PrepareFault, Prepared, let_go_changed};
use std::alloc::Global;
use store_sealing::commits_need_what_they_cost;

/// Commits a change under a session's pin, with the chunks that it writes. It is the first that is tried under the pin. The answer is the
/// place of its entry, which is the last one.
pub fn commit<D: Disk>(
    alloc: Global,
    store: &mut Store<D>,
    session: u32,
    change: Change,
    changed: Option<Changed>,
) -> Result<u64, CommitFault>
    requires pinned { IsTrue (is_pinned session (history store.old.ledger)) }
    requires tried { is_noted is_tried store.old.ledger session ≡ false }
    requires asked { IsAsked D.moment (standing D.moment store.old) change changed }
    ensures done { OnOk result (AddsSealed session change (standing D.moment store.old) (standing D.moment store.new)) }
    ensures place { IfOk result (λ place. place + 1 ≡ length store.new.ledger.entries) }
    ensures typed { IfOk result (λ place. IsTypedFor (names_at store.new.ledger.base (history_at (standing D.moment store.new) place)) change) }
    ensures may { IfOk result (λ place. (db : Database) → BeganAs (D.moment store.new.opened.value.disk).state db
        → MayBeMade (database_with db (standing D.moment store.new) place) change changed) }
    ensures next { IfOk result (λ place.
        sequence_at (base_of (standing D.moment store.new)) (history_at (standing D.moment store.new) place) < 2 ^ 64 - 1) }
    ensures fits { IfOk result (λ place. FitsAfter D.moment (standing D.moment store.new) (history_at (standing D.moment store.new) place) change) }
    ensures err { OnErr result (AddsTried session change [] (standing D.moment store.old) (standing D.moment store.new)) }
    ensures cause { IfErr result (IsUncommitted D.moment session change (standing D.moment store.new)) }
{
    store.is_at();
    commits_need_what_they_cost::<D>();
    match store.prepare(alloc, session, change, changed) {
        Ok(prepared) => seal(store, prepared),
        Err(fault) => Err(refused(store, fault)),
    }
}

/// Lets a change go that isn't committed, with the chunks that it writes.
pub fn give_up(change: Change, changed: Option<Changed>) {
    let_go_change(change);
    let_go_changed(changed);
}

/// Why a commit wasn't prepared, with the number of entries.
fn refused<D: Disk>(store: &Store<D>, fault: PrepareFault) -> CommitFault
    ensures { result ≡ refused_at (length store.now.ledger.entries) fault }
{
    let place = store.history().len() as u64;
    match fault {
        PrepareFault::SequenceEnd => CommitFault::SequenceEnd { place },
        PrepareFault::Full { needed, free } => CommitFault::Full {
            needed,
            free,
            place,
        },
        PrepareFault::Memory => CommitFault::Memory,
    }
}

/// Commits what is prepared.
fn seal<D: Disk>(store: &mut Store<D>, prepared: Prepared) -> Result<u64, CommitFault>
    requires { (changed : Option Changed) × IsPreparedFor D.moment store.old changed prepared }
    ensures place { IfOk result (λ place. place ≡ length store.old.ledger.entries) }
    ensures noted { MatchResult result
        (λ _. NotesFault (D.moment store.old.file.disk).state (D.moment store.new.file.disk).state prepared.session
        (sealed_ledger (standing D.moment store.old) prepared) store.new.ledger)
        (λ _. NotesFault (D.moment store.old.file.disk).state (D.moment store.new.file.disk).state prepared.session store.old.ledger store.new.ledger) }
    ensures adds { MatchResult result
        (λ _. AddsCommit D.moment prepared (standing D.moment store.old) (standing D.moment store.new))
        (λ _. AddsFault D.moment prepared.session (standing D.moment store.old) (standing D.moment store.new)) }
    ensures cause { IfErr result (IsStoppedSince (D.moment store.old.file.disk).state.faults (D.moment store.new.file.disk).state.faults
        (length store.new.ledger.entries)) }
{
    let before = store.faults();
    match store.seal(prepared) {
        Ok(place) => Ok(place),
        Err(_) => Err(stopped(store, before)),
    }
}

/// Why a commit wasn't sealed: the disk failed since it had failed so often, or memory was short.
fn stopped<D: Disk>(store: &Store<D>, before: u64) -> CommitFault
    ensures { IsStoppedSince before (D.moment store.now.file.disk).state.faults (length store.now.ledger.entries) result }
{
    let now = store.faults();
    if before < now || now == u64::MAX {
        let place = store.history().len() as u64;
        CommitFault::Disk { place }
    } else {
        CommitFault::Memory
    }
}
