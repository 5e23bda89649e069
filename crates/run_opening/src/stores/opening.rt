//! The store of a run.
ghost use Rattle.std.specs.Prelude.{◌≡◌, IfErr, IfOk, MatchResult};
ghost use Rattle.array_store.specs.Starts.{start_of};
ghost use Rattle.page_chain.specs.Puts.{OnlySyncs};
ghost use Rattle.store_opening.specs.Opened.{IsNew};
ghost use Rattle.store_state.specs.At.{standing};
ghost use Rattle.run_opening.specs.Began.{BeganOver, TellsUnopened, notice_of_cause};

use crate::reports::Notice;
use afl_outside::Disk;
use array_store::Store;
use page_file::OpenCause;
use std::alloc::Global;
use store_opening::Limits;

/// Opens a store over a disk. Where that fails the disk is handed back, with what is told.
pub fn open_store<D: Disk>(alloc: Global, disk: D, limits: Limits) -> Result<Store<D>, (Notice, D)>
    ensures new { IfOk result (λ store. IsNew limits (standing D.moment store)) }
    ensures began { IfOk result (λ store. BeganOver D.moment disk limits (start_of (standing D.moment store))) }
    ensures reads { MatchResult result
        (λ store. OnlySyncs (D.moment disk) (D.moment store.file.disk))
        (λ failed. OnlySyncs (D.moment disk) (D.moment failed.1)) }
    ensures cause { IfErr result (λ failed. TellsUnopened failed.0 (D.moment disk).state (D.moment failed.1).state) }
{
    match Store::open(alloc, disk, limits) {
        Ok(store) => Ok(store),
        Err((cause, disk)) => Err((notice_of(cause), disk)),
    }
}

/// What is told where a store is not opened.
fn notice_of(cause: OpenCause) -> Notice
    ensures { result ≡ notice_of_cause cause }
{
    match cause {
        OpenCause::Disk => Notice::Disk,
        OpenCause::NotDatabase { page } => Notice::NotDatabase { page },
        OpenCause::Memory => Notice::Memory,
    }
}
