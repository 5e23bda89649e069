//! The rows of plans.

mod rows;

pub use rows::{PlanArray, PlanRows, array_of};
