//! Laws of plans.
ghost use Rattle.logical_plan.specs.Laws.{MeaningHasSchema, TypedPlansHaveValidSchemas, ValuesAreOrdered};

/// The array that a plan means has the schema that `schema_of` answers, and for a typed plan a valid one.
pub fn plans_mean_arrays_of_their_schema()
    ensures schema { MeaningHasSchema }
    ensures valid { TypedPlansHaveValidSchemas }
{}

/// The order of values by which `min` and `max` choose is a total one of all values.
pub fn values_are_ordered()
    ensures { ValuesAreOrdered }
{}
