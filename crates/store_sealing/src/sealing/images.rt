//! What becomes of the images of a store by the writes of a commit. No code has to be run for it.

ghost use Rattle.store_sealing.specs.ImagesLaws.{ImagesStand, FoundVersionsLie, UntouchedImages, UnopenedImages, OpeningRecords, OpeningRoots, NextImages};
ghost use Rattle.store_sealing.specs.ImagesLaws.{LaidRecordsStand, LaidBasesStand, ImagesHaveStood, RecordsHaveStood, BasesHaveStood};
ghost use Rattle.store_sealing.specs.ImagesLaws.{HaveStoodOver, HaveStoodNow};
ghost use Rattle.store_sealing.specs.ImagesWorked.{AStoreMayBeWritten};

use afl_outside::Disk;
use file_meaning::writes_leave_standing;
use store_state::{
    a_store_is_kept, laid_bases_make_next, laid_records_make_next, opened_files_stand,
};

/// A file that stands for a database by its slots, and for the one in doubt by what may stand open in them, stands for one of these.
pub fn images_stand()
    ensures { ImagesStand }
{
    opened_files_stand();
}

/// Each version that is found lies in the file.
pub fn found_versions_lie()
    ensures { FoundVersionsLie }
{}

/// Until the slot of a commit is opened, each image goes on to be one of the store.
pub fn unopened_images()
    ensures untouched { UntouchedImages }
    ensures unopened { UnopenedImages }
{
    writes_leave_standing();
    opened_files_stand();
}

/// While it may stand open, each image is one with the change in doubt.
pub fn opening_images()
    ensures records { OpeningRecords }
    ensures roots { OpeningRoots }
{
    writes_leave_standing();
    opened_files_stand();
}

/// Once it is open, each image is one after the commit.
pub fn next_images()
    ensures { NextImages }
{
    writes_leave_standing();
    opened_files_stand();
}

/// With what is laid of a commit an image stands for the database after the change.
pub fn laid_commits_stand()
    ensures records { LaidRecordsStand }
    ensures bases { LaidBasesStand }
{
    laid_records_make_next();
    laid_bases_make_next();
}

/// An image of any moment of a commit stands for the whole history, or for that and one change more.
pub fn images_have_stood()
    ensures images { ImagesHaveStood }
    ensures records { RecordsHaveStood }
    ensures bases { BasesHaveStood }
{
    writes_leave_standing();
    opened_files_stand();
    laid_records_make_next();
    laid_bases_make_next();
}

/// What has stood goes on to, over the moments of a commit.
pub fn moments_go_on<D: Disk>(old: &D, new: &D)
    ensures over { HaveStoodOver (D.moment old.now) (D.moment new.now) }
    ensures now { HaveStoodNow (D.moment new.now) }
{}

/// There is a store over whose image a commit may be written.
pub fn a_store_may_be_written()
    ensures { AStoreMayBeWritten }
{
    a_store_is_kept();
}
