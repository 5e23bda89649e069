//! Plans, executed over a source of chunks; what a plan gives over it, its rows or its first fault; and which plans mean arrays.
#![tactic(auto)]

mod plans;
mod rows;

pub use chunk_source::ExecFault;
pub use plans::execute;
pub use rows::{
    PlanArray, PlanRows, array_of, computed_plans_mean_arrays, first_fault, typed_plans_mean_arrays,
};
