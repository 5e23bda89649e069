//! A commit that was prepared is sealed.
ghost use Rattle.std.specs.Prelude.{◌≡◌, ℕ, List, Option, length, IfOk, OnOk, OnErr, MatchResult};
ghost use Rattle.afl_outside.specs.Disk.{DiskGoesOn, FailsWithCause, LeavesOnly};
ghost use Rattle.array_geom.specs.declared.chunk.Changed.{Changed};
ghost use Rattle.plan_changes.specs.Databases.{Database, after};
ghost use Rattle.event_core.specs.Cells.{at};
ghost use Rattle.file_meaning.specs.Standing.{Stands};
ghost use Rattle.page_file.specs.declared.commits.stopped.Stopped.{Stopped};
ghost use Rattle.store_ledger.specs.Ledger.{history};
ghost use Rattle.prepared_commits.specs.At.{AreParts, keeping, standing};
ghost use Rattle.prepared_commits.specs.Calls.{NotesFault};
ghost use Rattle.prepared_commits.specs.Standings.{BeganAs};
ghost use Rattle.prepared_commits.specs.Prepared.{IsPreparedFor};
ghost use Rattle.store_sealing.specs.Steps.{sealed, sealed_keeping, sealed_ledger, stopped};
ghost use Rattle.store_sealing.specs.Moves.{MayLeave};

use crate::sealing::sealing::finishing::finish;
use crate::sealing::sealing::laws::commits_hold;
use crate::sealing::sealing::writing::write_prepared;
use afl_outside::{Disk, Failed};
use prepared_commits::{Prepared, StoreParts};

/// Commits what is prepared: writes it, and then adds its entry. This takes no memory. Where the device fails, names and history stay as
/// they are, and the change may be in doubt.
pub fn seal<D: Disk>(parts: &mut StoreParts<D>, prepared: Prepared) -> Result<u64, Failed>
    requires at { AreParts D.moment parts.old }
    requires prepared { (changed : Option Changed) × IsPreparedFor D.moment parts.old changed prepared }
    ensures at { AreParts D.moment parts.new }
    ensures ok { IfOk result (λ place. (place ≡ length parts.old.ledger.entries) × (standing D.moment parts.new
        ≡ sealed D.moment (standing D.moment parts.old) prepared parts.new.ledger parts.new.file.disk)) }
    ensures err { OnErr result ((stage : Stopped) × (standing D.moment parts.new
        ≡ stopped stage (standing D.moment parts.old) prepared parts.new.ledger parts.new.file.disk)) }
    ensures kept { MatchResult result
        (λ _. keeping parts.new ≡ sealed_keeping (standing D.moment parts.old) (keeping parts.old) prepared)
        (λ _. keeping parts.new ≡ record (keeping parts.old) { slots = parts.new.file.slots }) }
    ensures noted { MatchResult result
        (λ _. NotesFault (D.moment parts.old.file.disk).state (D.moment parts.new.file.disk).state prepared.session
        (sealed_ledger (standing D.moment parts.old) prepared) parts.new.ledger)
        (λ _. NotesFault (D.moment parts.old.file.disk).state (D.moment parts.new.file.disk).state prepared.session parts.old.ledger parts.new.ledger) }
    ensures during { (db : Database) → BeganAs (D.moment parts.old.opened.value.disk).state db
        → LeavesOnly (D.moment parts.old.file.disk).state.moment (D.moment parts.new.file.disk).state.moment
        (D.moment parts.old.file.disk).left_since (D.moment parts.new.file.disk).left_since
        (MayLeave db (standing D.moment parts.old) (keeping parts.old) prepared (D.moment parts.old.file.disk).may_leave) }
    ensures durable { OnOk result ((db : Database) → BeganAs (D.moment parts.old.opened.value.disk).state db
        → (image : List ℕ) → (D.moment parts.new.file.disk).may_leave image
        → Stands image (after (at db (history parts.old.ledger)) prepared.commit.change)) }
    ensures same { DiskGoesOn (D.moment parts.old.file.disk).state (D.moment parts.new.file.disk).state }
    ensures cause { FailsWithCause result (D.moment parts.old.file.disk) (D.moment parts.new.file.disk) }
{
    commits_hold::<D>();
    let outcome = write_prepared(&mut parts.file, &mut parts.acked, &prepared);
    finish(
        &mut parts.ledger,
        &mut parts.catalog,
        &mut parts.table,
        &mut parts.doubt,
        &mut parts.made,
        prepared,
        outcome,
    )
}
