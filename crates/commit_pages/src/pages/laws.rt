//! What is known of the pages of commits. No code has to be run for it.
ghost use Rattle.commit_pages.specs.Inner.Example.{AnInsertIsLaid};
ghost use Rattle.commit_pages.specs.Laws.{StoresListTheirs, InsertsReplace, RecordsCostTheirPages, BasesCostTheirPages};
ghost use Rattle.commit_pages.specs.Laws.{WrittenAreThere, VersionsAreHeld, RecordsUseTheGiven, BasesUseTheGiven};

/// The directory of a new version has the entries that are written, of an insert in the places of those of the newest version.
pub fn directories_take_entries()
    ensures stores { StoresListTheirs }
    ensures inserts { InsertsReplace }
{}

/// A commit takes as many pages as its change costs.
pub fn commits_take_what_they_cost()
    ensures records { RecordsCostTheirPages }
    ensures bases { BasesCostTheirPages }
{}

/// Once a file has the payloads' bytes in their pages, each chunk that is written is there.
pub fn written_chunks_are_there()
    ensures { WrittenAreThere }
{}

/// Once a file has the blobs' bytes in their pages, it holds the new version.
pub fn new_versions_are_held()
    ensures { VersionsAreHeld }
{}

/// The fresh pages of a commit are those that it was given.
pub fn commits_use_the_given_pages()
    ensures records { RecordsUseTheGiven }
    ensures bases { BasesUseTheGiven }
{}

/// There is an insert over a store of two chunks, which takes three pages and shares one.
pub fn an_insert_is_laid()
    ensures { AnInsertIsLaid }
{}
