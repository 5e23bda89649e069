//! Laws of catalogues.
ghost use Rattle.version_catalog.specs.Changed.{NamesAreKept, RecordsKeepCatalogs, ChangesHaveRecords, ChangesKeepCatalogs};
ghost use Rattle.version_catalog.specs.Directories.{RecordsMoveDirectories, RecordsAreAllowed, RecordsDoTheirChange, CatalogsFollowDatabases};

/// The names of the catalogue after a change are the names after the change.
pub fn names_are_kept()
    ensures { NamesAreKept }
{}

/// A record that is allowed leaves a catalogue that has a spelling.
pub fn records_keep_catalogs()
    ensures { RecordsKeepCatalogs }
{}

/// The record of a change that the names allow has a spelling.
pub fn changes_have_records()
    ensures { ChangesHaveRecords }
{}

/// A change that the names allow leaves a catalogue that has a spelling.
pub fn changes_keep_catalogs()
    ensures { ChangesKeepCatalogs }
{}

/// A record that is allowed gives the version that it makes its own directory, takes those away that go, and leaves all others.
pub fn records_move_directories()
    ensures { RecordsMoveDirectories }
{}

/// The record of a change that the names allow is allowed, and makes of the catalogue what the change does.
pub fn records_do_their_change()
    ensures allowed { RecordsAreAllowed }
    ensures same { RecordsDoTheirChange }
{}

/// A catalogue with a database's names keeps to them over a change, wherever its directories lie.
pub fn catalogs_follow_databases()
    ensures { CatalogsFollowDatabases }
{}
