//! A commit carries a file from the database that it stands for to the next one. No code has to be run for it.

ghost use Rattle.file_meaning.specs.Inner.NextExample.{AnArrayIsStoredAgain};
ghost use Rattle.file_meaning.specs.Inner.Removed.{AnArrayIsRemoved};
ghost use Rattle.file_meaning.specs.NextLaws.{FilesStandByTheirSlots, StandingFilesHaveSlots, WritesLeaveStanding, FoundDirectoriesRise, FreePagesTurn};
ghost use Rattle.file_meaning.specs.NextLaws.{HadEntriesAreSeen, LaterEntriesAreUnseen, ReplacingEntriesAreUnseen, WrittenPayloadsAreHeld};
ghost use Rattle.file_meaning.specs.NextLaws.{RecordsMakeNext, BasesMakeNext, TornBasesStandAlike};

/// A file stands for a database just where it does so by its own slots.
pub fn files_stand_by_their_slots()
    ensures stands { FilesStandByTheirSlots }
    ensures slots { StandingFilesHaveSlots }
{}

/// Writes to page 0 or the log page, and to pages none of which was found, leave a file standing by its slots.
pub fn writes_leave_standing()
    ensures { WritesLeaveStanding }
{}

/// The entries of each directory that is found rise.
pub fn found_directories_rise()
    ensures { FoundDirectoriesRise }
{}

/// With the record of a change the file stands for the database after it.
pub fn records_make_next()
    ensures { RecordsMakeNext }
{}

/// With a new base of the catalogue after a change the file stands for the database after it.
pub fn bases_make_next()
    ensures { BasesMakeNext }
{}

/// A new base that is torn to format 1 stands for the same database.
pub fn torn_bases_stand_alike()
    ensures { TornBasesStandAlike }
{}

/// What was written as the one spelling of a stored chunk is a new version's payload.
pub fn written_payloads_are_held()
    ensures { WrittenPayloadsAreHeld }
{}

/// An array that is stored again: a file, the file with the record, and what the law of records says of them.
pub fn an_array_is_stored_again()
    ensures { AnArrayIsStoredAgain }
{}

/// An array that is removed by a new base: the same file, the file with the base, and what the law of bases says of them.
pub fn an_array_is_removed()
    ensures { AnArrayIsRemoved }
{}

/// Which entries of a new version the versions before have, and which are new.
pub fn entries_are_seen()
    ensures had { HadEntriesAreSeen }
    ensures later { LaterEntriesAreUnseen }
    ensures replacing { ReplacingEntriesAreUnseen }
{}

/// Free pages are free in another order.
pub fn free_pages_turn()
    ensures { FreePagesTurn }
{}
