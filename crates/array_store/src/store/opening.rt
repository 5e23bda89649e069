//! How a store is opened.
ghost use Rattle.std.specs.Prelude.{◌≡◌, ℕ, List, IfSome, IfOk, IfErr, MatchResult};
ghost use Rattle.page_chain.specs.Puts.{OnlySyncs};
ghost use Rattle.plan_changes.specs.Databases.{Database};
ghost use Rattle.file_meaning.specs.Standing.{Stands};
ghost use Rattle.store_opening.specs.At.{standing};
ghost use Rattle.store_opening.specs.Standings.{BeganAs};
ghost use Rattle.store_opening.specs.Opened.{HasCause, HasFound, IsNew, IsToldBy, WasOpened};

use crate::store::Store;
use afl_outside::Disk;
use page_file::OpenCause;
use std::alloc::Global;
use store_opening::{Limits, open};

impl<D: Disk> Store<D> {
    /// Opens a store. The disk is handed back where that fails: a file that is wrong is told by the first page at which it is.
    pub fn open(alloc: Global, disk: D, limits: Limits) -> Result<Store<D>, (OpenCause, D)>
        ensures new { IfOk result (λ store. IsNew limits (standing D.moment store)) }
        ensures opened { IfOk result (WasOpened D.moment disk) }
        ensures told { IfSome (D.moment disk).state.seen (λ seen. MatchResult result (HasFound D.moment limits seen) (λ x. IsToldBy seen x.0)) }
        ensures stands { IfOk result (λ store. (db : Database) → BeganAs (D.moment store.opened.value.disk).state db
            → (image : List ℕ) → (D.moment store.file.disk).may_leave image → Stands image db) }
        ensures reads { MatchResult result
            (λ store. OnlySyncs (D.moment disk) (D.moment store.file.disk))
            (λ x. OnlySyncs (D.moment disk) (D.moment x.1)) }
        ensures cause { IfErr result (λ x. HasCause x.0 (D.moment disk).state (D.moment x.1).state) }
    {
        match open(alloc, disk, limits) {
            Ok(parts) => Ok(Store { parts }),
            Err(failed) => Err(failed),
        }
    }
}
