//! Which backups are restored.
ghost use Rattle.backup_restoring.specs.Laws.{BackupsAreRestored};

/// The backup of a database that fits into so many pages is restored.
#[tactic(auto, using(crate::proofs::Tested::backups_are_restored))]
pub fn backups_are_restored()
    ensures { BackupsAreRestored }
{}
