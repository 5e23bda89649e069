//! What holds of tables of versions.
ghost use Rattle.std.specs.Prelude.{◌≡◌, [], ◌∷◌, drop};
ghost use Rattle.event_core.specs.Shared.{shared_base, shared};
ghost use Rattle.store_versions.specs.Laws.{BasesAreSeen, BasesHaveDirectories, ForgettingIsSeen, LaterDirectoriesAreFree};
ghost use Rattle.store_versions.specs.Laws.{NamedVersionsHaveDirectories, PinsSeeTheirVersions, TablesFollowEntries};
ghost use Rattle.store_versions.specs.Rows.{needed_rows, places_at};
ghost use Rattle.store_versions.specs.Seen.{seen, AreSeen};
ghost use Rattle.store_versions.specs.Worked.{worked_directories, worked_rows, first_version, second_version};

/// At the opening the present sees the base's versions, and each that can be named has a directory.
pub fn bases_are_seen()
    ensures seen { BasesAreSeen }
    ensures directories { BasesHaveDirectories }
{}

/// A commit that changes the table by its change and its directory, and any other entry, leaves it to the present and to each
/// open pin to see just the versions that can be named there.
pub fn entries_are_seen()
    ensures { TablesFollowEntries }
{}

/// So does a table that forgets what nobody can name any more.
pub fn forgetting_is_seen()
    ensures { ForgettingIsSeen }
{}

/// The directories of commits that come later may be any.
pub fn later_directories_are_free()
    ensures { LaterDirectoriesAreFree }
{}

/// What a session's open pin sees is what could be named when it began.
pub fn pins_see_their_versions()
    ensures { PinsSeeTheirVersions }
{}

/// After an ordered history each version that can be named has a directory.
pub fn named_versions_are_seen()
    ensures { NamedVersionsHaveDirectories }
{}

/// There is a table that sees a removed version at the pin that can name it, and forgets it once that pin is gone.
pub fn a_table_is_seen()
    ensures seen { AreSeen worked_directories worked_rows shared_base (drop 2 shared) }
    ensures pin { seen 3 worked_rows ≡ first_version ∷ [] }
    ensures now { seen 11 worked_rows ≡ second_version ∷ [] }
    ensures kept { needed_rows (places_at (drop 2 shared)) worked_rows ≡ worked_rows }
    ensures forgotten { needed_rows (places_at shared) worked_rows ≡ drop 1 worked_rows }
{}
