//! What holds of a commit that is sealed, or stops.
ghost use Rattle.store_sealing.specs.Inner.Lawful.{CommitsHold};

use crate::sealing::cells::{
    commits_pass_by, payloads_are_held, sealed_cells_are_held, stopped_cells_are_held,
};
use crate::sealing::steps::{sealed_stores_are_kept, stopped_stores_are_kept};
use afl_outside::Disk;

/// What a store keeps and holds then, and what each image of those moments stands for. No code has to be run for it.
pub(crate) fn commits_hold<D: Disk>()
    ensures { CommitsHold D.moment }
{
    sealed_stores_are_kept::<D>();
    stopped_stores_are_kept::<D>();
    payloads_are_held::<D>();
    sealed_cells_are_held::<D>();
    stopped_cells_are_held::<D>();
    commits_pass_by::<D>();
}
