//! What is handed to a commit is the change's, wherever a file stands for the database by its slots. No code has to be run for it.

ghost use Rattle.store_state.specs.Inner.Insert.{AnInsertIsOverItsFile};
ghost use Rattle.store_state.specs.CostsLaws.{FoundCatalogsAreAlike, FoundDirectoriesAreOfTheirRows, FoundFilesAreOver};

use file_meaning::found_directories_rise;

/// The catalogue that is found has as many bytes, and as many pages in each of its directories, as the database's own.
pub fn found_catalogs_are_alike()
    ensures { FoundCatalogsAreAlike }
{
    found_directories_rise();
}

/// The directory that is found for the newest version lists its rows' chunks, each with its payload's length.
pub fn found_directories_are_of_their_rows()
    ensures { FoundDirectoriesAreOfTheirRows }
{
    found_directories_rise();
}

/// What is found, with the chunks of a change, is what a commit of the change is handed.
pub fn found_files_are_over()
    ensures { FoundFilesAreOver }
{
    found_directories_rise();
}

/// An insert over a file of five pages: all that the law asks holds of it, and what it says.
pub fn an_insert_is_over_its_file()
    ensures { AnInsertIsOverItsFile }
{}
