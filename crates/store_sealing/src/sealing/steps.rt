//! What a store keeps over a commit that is sealed, or stops. No code has to be run for it.

ghost use Rattle.prepared_commits.specs.Worked.{worked_keeping, worked_moment};
ghost use Rattle.store_sealing.specs.StepsLaws.{IsReady, SealedStoresAreKept, StoppedStoresAreKept};
ghost use Rattle.store_sealing.specs.StepsWorked.{pinned_store, prepared_removal};

use afl_outside::Disk;
use prepared_commits::a_store_is_kept;
use store_state::directories_follow;

/// A store keeps what it keeps over a commit that is sealed.
pub fn sealed_stores_are_kept<D: Disk>()
    ensures { SealedStoresAreKept D.moment }
{
    directories_follow();
}

/// So it does over one that stops.
pub fn stopped_stores_are_kept<D: Disk>()
    ensures { StoppedStoresAreKept D.moment }
{}

/// There is a store with a commit that is prepared for it: under a pin the one array of the worked store is removed.
pub fn a_commit_is_ready()
    ensures { IsReady worked_moment pinned_store worked_keeping prepared_removal }
{
    a_store_is_kept();
}
