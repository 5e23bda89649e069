//! Laws of plans over databases.
ghost use Rattle.chunk_exec.specs.Laws.{TypedPlansMeanArrays};

/// Over each database that it is typed for a plan means an array of its schema, where it is not broken. What it aggregates has
/// fewer than 2^63 cells there, so that each number of cells is a value.
pub fn typed_plans_mean_arrays()
    ensures { TypedPlansMeanArrays }
{}
