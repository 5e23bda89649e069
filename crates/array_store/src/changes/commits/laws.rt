//! What holds of changes after entries that leave their arrays as they were.
ghost use Rattle.array_store.specs.FreshChanges.{AFreshInsertMayBeMade, FreshChangesMayBeMade};

/// A change that may be made of a database, with the chunks that it writes, may be made after later entries too, if no commit of them is
/// about an array that it reads or is about.
pub fn fresh_changes_may_be_made()
    ensures changes { FreshChangesMayBeMade }
    ensures worked { AFreshInsertMayBeMade }
{}
