//! What is known of the databases that files stand for. No code has to be run for it.

ghost use Rattle.file_meaning.specs.Inner.FileExample.{AFileStands, FilesAreWrongAtPages};
ghost use Rattle.file_meaning.specs.FileLaws.{FilesHaveTheirSlots, MadeFilesStand, WritesElsewhere, OneDatabase, OpensOrIsWrong};
ghost use Rattle.file_meaning.specs.FileLaws.{OpensAsOne, IsWrongAtOne, NotBoth, WrongSlotsAreWrong, TornRootsFindAlike};
ghost use Rattle.file_meaning.specs.FileLaws.{PagesLieApart, StoredChunksAreParts, PartsAreStored, ReadPayloadsAreSpelled};
ghost use Rattle.file_meaning.specs.FileLaws.{SpelledPayloadsAreRead, SoundRowsAreStored, StoredChunksAreGiven, GivenChunksAreStored};
ghost use Rattle.file_meaning.specs.FileLaws.{ChunksBesideStay, CountsAgree, MoreMayBeTaken, FilesOpenByTheirSlots};

/// A file that opens as a root with some records has just these slots.
pub fn files_have_their_slots()
    ensures has { FilesHaveTheirSlots }
    ensures opens { FilesOpenByTheirSlots }
{}

/// The file that is made of an empty one stands for no arrays.
pub fn made_files_stand()
    ensures { MadeFilesStand }
{}

/// Writes to other pages leave what a file opens as and what it stands for.
pub fn writes_elsewhere_leave_it()
    ensures { WritesElsewhere }
{}

/// A file stands for one database at most.
pub fn files_stand_for_one_database()
    ensures { OneDatabase }
{}

/// A file of five pages stands for an array of two cells.
pub fn a_file_stands_for_two_cells()
    ensures { AFileStands }
{}

/// The same file with another page, chunk number or birth is wrong at just these pages.
pub fn files_are_wrong_at_pages()
    ensures { FilesAreWrongAtPages }
{}

/// A file opens as one thing, or is wrong at one page, and never both.
pub fn files_open_or_are_wrong()
    ensures either { OpensOrIsWrong }
    ensures one { OpensAsOne }
    ensures page { IsWrongAtOne }
    ensures apart { NotBoth }
{}

/// A file that is no database by its slots is wrong at just that page.
pub fn wrong_slots_are_wrong()
    ensures { WrongSlotsAreWrong }
{}

/// What is found by a root of format 2 with an empty log is found by the same root in format 1.
pub fn torn_roots_find_alike()
    ensures { TornRootsFindAlike }
{}

/// No page of a directory or of a payload is the log page or one of the catalogue's.
pub fn pages_lie_apart()
    ensures { PagesLieApart }
{}

/// A stored chunk is its part of the rows, and the only chunk of its number that is.
pub fn stored_chunks_are_parts()
    ensures parts { StoredChunksAreParts }
    ensures one { PartsAreStored }
{}

/// What is read as a chunk is its one spelling, and what spells a stored chunk is read as it.
pub fn payloads_are_spelled()
    ensures read { ReadPayloadsAreSpelled }
    ensures spelled { SpelledPayloadsAreRead }
{}

/// The chunk of sound rows is a stored one, where its core holds a row.
pub fn sound_rows_are_stored()
    ensures { SoundRowsAreStored }
{}

/// What is stored as bytes is what a source of chunks may give under its number.
pub fn stored_chunks_are_given()
    ensures given { StoredChunksAreGiven }
    ensures stored { GivenChunksAreStored }
{}

/// A chunk whose frame holds none of the rows that are put in stays as it is stored.
pub fn chunks_beside_stay()
    ensures { ChunksBesideStay }
{}

/// Catalogues and blobs count the pages that some bytes need alike.
pub fn page_counts_agree()
    ensures { CountsAgree }
{}

/// Directories are found again where more pages are taken, none of which is theirs.
pub fn more_pages_may_be_taken()
    ensures { MoreMayBeTaken }
{}
