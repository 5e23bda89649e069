//! What a change makes of the directories and the pages that are found of a file. No code has to be run for it.

ghost use Rattle.store_state.specs.RowsLaws.{DirectoriesFollow, OrdersFollow, PagesFollow, FoundPagesAreOfVersions, FirstRowsAreInOrder, NewestAreLast};

/// A change makes of the directories in a catalogue what it makes of the versions, which go on to stand in order.
pub fn directories_follow()
    ensures directories { DirectoriesFollow }
    ensures order { OrdersFollow }
{}

/// So it does of their pages.
pub fn pages_follow()
    ensures { PagesFollow }
{}

/// Each page that is found of the directories is one of a version's.
pub fn found_pages_are_of_versions()
    ensures { FoundPagesAreOfVersions }
{}

/// At the opening each array's versions stand in the order of its directories.
pub fn first_rows_are_in_order()
    ensures { FirstRowsAreInOrder }
{}

/// The directory of an array's newest version is the last one.
pub fn newest_are_last()
    ensures { NewestAreLast }
{}
