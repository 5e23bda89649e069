//! Commits of a store are sealed.
ghost use Rattle.std.specs.Prelude.{◌≡◌, ℕ, List, Option, length, IfOk, OnOk, OnErr, MatchResult};
ghost use Rattle.afl_outside.specs.Disk.{FailsWithCause, LeavesOnly};
ghost use Rattle.array_geom.specs.declared.chunk.Changed.{Changed};
ghost use Rattle.plan_changes.specs.Databases.{Database, after};
ghost use Rattle.event_core.specs.Cells.{at};
ghost use Rattle.file_meaning.specs.Standing.{Stands};
ghost use Rattle.page_file.specs.declared.commits.stopped.Stopped.{Stopped};
ghost use Rattle.store_ledger.specs.Ledger.{history};
ghost use Rattle.store_opening.specs.At.{keeping, standing};
ghost use Rattle.store_opening.specs.Calls.{NotesFault};
ghost use Rattle.store_opening.specs.Standings.{BeganAs, StandsFor, database_at};
ghost use Rattle.prepared_commits.specs.Prepared.{IsPreparedFor};
ghost use Rattle.store_sealing.specs.Steps.{sealed, sealed_keeping, sealed_ledger, stopped};
ghost use Rattle.store_sealing.specs.Moves.{MayLeave};
ghost use Rattle.array_store.specs.Growth.{AddsFault};
ghost use Rattle.array_store.specs.Sealing.{AddsCommit};

use crate::store::Store;
use crate::store::store::is_ledger;
use afl_outside::{Disk, Failed};
use prepared_commits::Prepared;
use store_sealing::seal;

impl<D: Disk> Store<D> {
    /// Commits what is prepared: writes it, and then adds its entry. The answer is the entry's place. This takes no memory. Where the disk
    /// fails, names and history stay as they are, and the change may be in doubt: then a later opening may find it.
    pub fn seal(&mut self, prepared: Prepared) -> Result<u64, Failed>
        requires { (changed : Option Changed) × IsPreparedFor D.moment self.old changed prepared }
        ensures ok { IfOk result (λ place. (place ≡ length self.old.ledger.entries) × (standing D.moment self.new
            ≡ sealed D.moment (standing D.moment self.old) prepared self.new.ledger self.new.file.disk)) }
        ensures err { OnErr result ((stage : Stopped) × (standing D.moment self.new
            ≡ stopped stage (standing D.moment self.old) prepared self.new.ledger self.new.file.disk)) }
        ensures kept { MatchResult result
            (λ _. keeping self.new ≡ sealed_keeping (standing D.moment self.old) (keeping self.old) prepared)
            (λ _. keeping self.new ≡ record (keeping self.old) { slots = self.new.file.slots }) }
        ensures noted { MatchResult result
            (λ _. NotesFault (D.moment self.old.file.disk).state (D.moment self.new.file.disk).state prepared.session
            (sealed_ledger (standing D.moment self.old) prepared) self.new.ledger)
            (λ _. NotesFault (D.moment self.old.file.disk).state (D.moment self.new.file.disk).state prepared.session self.old.ledger self.new.ledger) }
        ensures adds { MatchResult result
            (λ _. AddsCommit D.moment prepared (standing D.moment self.old) (standing D.moment self.new))
            (λ _. AddsFault D.moment prepared.session (standing D.moment self.old) (standing D.moment self.new)) }
        ensures during { (db : Database) → BeganAs (D.moment self.old.opened.value.disk).state db
            → LeavesOnly (D.moment self.old.file.disk).state.moment (D.moment self.new.file.disk).state.moment
            (D.moment self.old.file.disk).left_since (D.moment self.new.file.disk).left_since
            (MayLeave db (standing D.moment self.old) (keeping self.old) prepared (D.moment self.old.file.disk).may_leave) }
        ensures stands { (db : Database) → BeganAs (D.moment self.old.opened.value.disk).state db
            → (image : List ℕ) → (D.moment self.new.file.disk).may_leave image
            → StandsFor (database_at db (standing D.moment self.new)) self.new.doubt image }
        ensures durable { OnOk result ((db : Database) → BeganAs (D.moment self.old.opened.value.disk).state db
            → (image : List ℕ) → (D.moment self.new.file.disk).may_leave image
            → Stands image (after (at db (history self.old.ledger)) prepared.commit.change)) }
        ensures cause { FailsWithCause result (D.moment self.old.file.disk) (D.moment self.new.file.disk) }
    {
        is_ledger(&self.parts.ledger);
        seal(&mut self.parts, prepared)
    }
}
