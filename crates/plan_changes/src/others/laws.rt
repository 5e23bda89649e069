//! Laws of changes.
ghost use Rattle.plan_changes.specs.Others.{OtherArraysStay, OtherEntriesStay, PlansOfOthersStay};

/// After a change the entry and the rows of every other name are as before, and a plan that reads other arrays alone means what
/// it did.
pub fn other_arrays_stay()
    ensures entries { OtherEntriesStay }
    ensures arrays { OtherArraysStay }
    ensures plans { PlansOfOthersStay }
{}
