//! Pieces and rows.
ghost use Rattle.backup_format.specs.Backups.{BackupsAreRead, ReadsAreBackups};
ghost use Rattle.backup_meaning.specs.Meaning.{BackupsAreOfOneDatabase, ShortBackupsAreCounted, VersionsFit};

/// The pieces of the rows of a version are read, and fit together to these rows.
pub fn versions_fit()
    ensures { VersionsFit }
{}

/// The backup of a database is read as the pieces of that database.
pub fn backups_are_read()
    ensures { BackupsAreRead }
{}

/// What is read is the backup of a database.
pub fn reads_are_backups()
    ensures { ReadsAreBackups }
{}

/// A backup is that of one database.
pub fn backups_are_of_one_database()
    ensures { BackupsAreOfOneDatabase }
{}

/// Counts and lengths of a backup of fewer than 2^64 bytes can be said.
pub fn short_backups_are_counted()
    ensures { ShortBackupsAreCounted }
{}
