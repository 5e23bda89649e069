//! What a plan gives over a source of chunks: its rows, or its first fault; and which plans mean arrays.

mod laws;
mod rows;

pub use laws::{computed_plans_mean_arrays, typed_plans_mean_arrays};
pub use rows::{PlanArray, PlanRows, array_of, first_fault};
