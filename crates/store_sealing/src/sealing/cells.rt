//! What a store holds over a commit, on an honest disk. No code has to be run for it.

ghost use Rattle.store_sealing.specs.CellsLaws.{CommitsPassBy, SealedCellsAreHeld, SealedImagesStand, SealedPayloadsAreHeld};
ghost use Rattle.store_sealing.specs.CellsLaws.{StoppedCellsAreHeld, StoppedPayloadsAreHeld};
ghost use Rattle.store_sealing.specs.CellsWorked.{ACommitIsWritten, BothMayOccur, ChunksAreAsked};

use crate::sealing::images::{
    images_have_stood, laid_commits_stand, next_images, opening_images, unopened_images,
};
use crate::sealing::steps::{a_commit_is_ready, sealed_stores_are_kept};
use afl_outside::Disk;
use file_meaning::{an_array_is_stored_again, files_stand_for_one_database, sound_rows_are_stored};
use prepared_commits::{a_store_is_kept, found_files_are_over};
use store_state::opened_files_stand;

/// A store holds the next database's cells once a commit is sealed, and each image stands for it.
pub fn sealed_cells_are_held<D: Disk>()
    ensures cells { SealedCellsAreHeld D.moment }
    ensures images { SealedImagesStand D.moment }
{
    found_files_are_over();
    opened_files_stand();
    unopened_images();
    opening_images();
    next_images();
    laid_commits_stand();
    images_have_stood();
    sealed_stores_are_kept::<D>();
}

/// Where a commit stops it holds those of the database before it.
pub fn stopped_cells_are_held<D: Disk>()
    ensures { StoppedCellsAreHeld D.moment }
{
    found_files_are_over();
    opened_files_stand();
    unopened_images();
    opening_images();
    next_images();
    laid_commits_stand();
    images_have_stood();
}

/// Each image of a commit's moments stands for the database before it or after it, or for one that was in doubt.
pub fn commits_pass_by<D: Disk>()
    ensures { CommitsPassBy D.moment }
{
    found_files_are_over();
    opened_files_stand();
    unopened_images();
    opening_images();
    next_images();
    laid_commits_stand();
    images_have_stood();
}

/// Whatever its file stands for, each payload of an honest disk is whole over a commit that is sealed or stops, but for those that weren't
/// whole as the file was opened: their bytes stay.
pub fn payloads_are_held<D: Disk>()
    ensures is_sealed { SealedPayloadsAreHeld D.moment }
    ensures has_stopped { StoppedPayloadsAreHeld D.moment }
{}

/// There is a store over which a commit was written, as far as that its slot wasn't closed for sure.
pub fn a_commit_is_written()
    ensures { ACommitIsWritten }
{
    a_store_is_kept();
    a_commit_is_ready();
}

/// There is a store of which a change is asked that chunks come with.
pub fn chunks_are_asked()
    ensures { ChunksAreAsked }
{
    an_array_is_stored_again();
    files_stand_for_one_database();
    sound_rows_are_stored();
}

/// While a change is in doubt either of its images may occur.
pub fn both_may_occur()
    ensures { BothMayOccur }
{
    an_array_is_stored_again();
    files_stand_for_one_database();
}
