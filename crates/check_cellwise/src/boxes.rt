//! Operators that keep the cells of a box: `between`, `subarray` and `slice`, over a source that is checked.

mod area;
mod boxes;
mod slice;

pub use boxes::{between_call, subarray_call};
pub use slice::slice_call;
