//! `between`, `subarray` and `slice`: cells in a box, chunk by chunk and of whole arrays.
#![tactic(auto)]

mod arrays;
mod chunks;
mod operators;
mod rows;

pub use arrays::{in_order, in_turn, push_core, slice, slice_owned, subarray, subarray_owned};
pub use chunks::between_chunk;
pub use operators::{between, over_array};
pub use rows::{moved_rows_are_arrays, part_of_rows, slice_of_rows};
