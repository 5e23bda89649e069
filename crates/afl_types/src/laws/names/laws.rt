//! Laws of checking and names.
ghost use Rattle.afl_types.specs.NamesLaws.{CheckingReadsNames, CheckedChangesSayTheirNames, CheckedChangesStay};

/// Of the stored arrays checking reads the entries of the names that a tree says, and whether there is room for one more.
pub fn checking_reads_names()
    ensures { CheckingReadsNames }
{}

/// A tree that is a change says the names that its plan reads and the one that it is about. It is the same change over all names
/// that have the same entries for these.
pub fn checked_changes_say_their_names()
    ensures names { CheckedChangesSayTheirNames }
    ensures stay { CheckedChangesStay }
{}
