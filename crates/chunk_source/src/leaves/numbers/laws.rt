//! Laws of numbered plans.
ghost use Rattle.chunk_source.specs.NumberLaws.{KnownRowsSuffice, NumberedPlansMeanTheSame};

/// A plan with numbered leaves means over the rows of each what the plan means.
pub fn numbered_plans_mean_the_same()
    ensures { NumberedPlansMeanTheSame }
{}

/// What the wanted chunks of each leaf tell suffices: over these rows, leaf by leaf, a plan means what it means over all.
pub fn known_rows_suffice()
    ensures { KnownRowsSuffice }
{}
