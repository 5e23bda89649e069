//! What holds of fresh changes.
ghost use Rattle.array_store.specs.Fresh.{FreshChangesAreLeft};

/// The arrays that a fresh change reads, and the one that it is about, are as they were, and there is room for one more array just where
/// there was. So it is checked, is typed, fails and stores as it did.
pub fn fresh_changes_are_left()
    ensures { FreshChangesAreLeft }
{}
