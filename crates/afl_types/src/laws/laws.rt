//! Laws of checking.
ghost use Rattle.afl_types.specs.Laws.{CheckedChangesAreTyped, CheckedPlansAreTyped, CreatedPlaceIsTheName, ParsedLeavesFit};

/// The plan that checking answers is typed.
pub fn checked_plans_are_typed()
    ensures { CheckedPlansAreTyped }
{}

/// The change that checking answers is typed for the names of the stored arrays.
pub fn checked_changes_are_typed()
    ensures { CheckedChangesAreTyped }
{}

/// The numbers, texts and codes of a tree that is parsed are within the limits of values.
pub fn parsed_leaves_fit()
    ensures { ParsedLeavesFit }
{}

/// The place that is told of a new array's name is that of the name's token.
pub fn created_places_are_names()
    ensures { CreatedPlaceIsTheName }
{}
