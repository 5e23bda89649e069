//! Checking `filter`, `apply`, `project`, `between`, `subarray` and `slice` of a plan.
#![tactic(auto)]

mod boxes;
mod cells;
mod laws;

pub use boxes::{between_call, slice_call, subarray_call};
pub use cells::{apply_call, attribute_places, filter_call, project_call};
pub use laws::parts_are_told_by_lengths;
