//! What a plan gives over the arrays of a source: its rows, or its first fault.

mod answers;
mod faults;

pub use answers::{PlanArray, PlanRows, array_of};
pub use faults::first_fault;
