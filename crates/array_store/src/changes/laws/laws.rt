//! Laws of histories.
ghost use Rattle.array_store.specs.ChangesLeft.{LeftNamesStay, LeftPagesStay, LeftRowsStay, LeftPlansStay};
ghost use Rattle.array_store.specs.FreshLaws.{FreshChecksStay, FreshChangesAreTyped, FreshChangesMeanTheSame};

/// An array that no commit of some entries is about has the entry, the pages and the rows after them that it had before them. A
/// plan that reads such arrays alone means what it did.
pub fn left_arrays_stay()
    ensures names { LeftNamesStay }
    ensures pages { LeftPagesStay }
    ensures rows { LeftRowsStay }
    ensures plans { LeftPlansStay }
{}

/// A change that reads, and is about, such arrays alone is checked to be the same change after the entries, is typed after them if
/// it was before, has the same fault or none, and stores the same rows.
pub fn fresh_changes_stay()
    ensures checks { FreshChecksStay }
    ensures typed { FreshChangesAreTyped }
    ensures means { FreshChangesMeanTheSame }
{}
