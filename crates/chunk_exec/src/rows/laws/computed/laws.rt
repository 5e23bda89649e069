//! Laws of plans that are computed.
ghost use Rattle.chunk_exec.specs.ComputedLaws.{ComputedPlansMeanArrays};

/// A plan, of whose meaning over a database an array was computed, means an array of its schema over that database.
pub fn computed_plans_mean_arrays()
    ensures { ComputedPlansMeanArrays }
{}
