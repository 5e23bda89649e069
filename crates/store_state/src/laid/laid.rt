//! What a commit lays carries a file from one database to the next. No code has to be run for it.

ghost use Rattle.store_state.specs.Inner.Removal.{ARemovalIsLaid};
ghost use Rattle.store_state.specs.LaidLaws.{LaidRecordsMakeNext, LaidBasesMakeNext, OpenedFilesStand, OpenedRootsStand};
ghost use Rattle.store_state.specs.LaidLaws.{LaidRecordsHaveTheirPages, LaidBasesHaveTheirPages, LaidDirectoriesHaveCores};

use file_meaning::{
    an_array_is_removed, bases_make_next, entries_are_seen, files_stand_by_their_slots,
    free_pages_turn, records_make_next, torn_bases_stand_alike,
};

/// With what is laid of a record the file stands for the database after the change.
pub fn laid_records_make_next()
    ensures { LaidRecordsMakeNext }
{
    records_make_next();
    entries_are_seen();
    free_pages_turn();
}

/// With what is laid of a new base the file stands for the database after the change.
pub fn laid_bases_make_next()
    ensures { LaidBasesMakeNext }
{
    bases_make_next();
    entries_are_seen();
    free_pages_turn();
}

/// A file that opens as the slots by which it stands for a database stands for it by its own.
pub fn opened_files_stand()
    ensures slots { OpenedFilesStand }
    ensures roots { OpenedRootsStand }
{
    files_stand_by_their_slots();
    torn_bases_stand_alike();
}

/// What is then found has the pages of the commit.
pub fn laid_commits_have_their_pages()
    ensures records { LaidRecordsHaveTheirPages }
    ensures bases { LaidBasesHaveTheirPages }
{}

/// The core of each chunk that a new directory lists holds a coordinate.
pub fn laid_directories_have_cores()
    ensures { LaidDirectoriesHaveCores }
{}

/// An array that is removed by a new base: what is laid of it is what its file has.
pub fn a_removal_is_laid()
    ensures { ARemovalIsLaid }
{
    an_array_is_removed();
    free_pages_turn();
}
