//! Laws of changes.
ghost use Rattle.plan_changes.specs.Databases.{NamesDependOnNoRow};
ghost use Rattle.plan_changes.specs.Kept.{ChangesKeepDatabases};
ghost use Rattle.plan_changes.specs.Stored.{ChangesKeepNames};

/// The names after a change are told by the names before it: they depend on no row.
pub fn names_depend_on_no_row()
    ensures { NamesDependOnNoRow }
{}

/// A change that the names allow leaves names that rise, numbers that rise, and no more arrays than may stand.
pub fn changes_keep_names()
    ensures { ChangesKeepNames }
{}

/// A typed change without fault, of a plan that means an array of its schema over the database, leaves a database.
pub fn changes_keep_databases()
    ensures { ChangesKeepDatabases }
{}
