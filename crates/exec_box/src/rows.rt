//! Rows at other coordinates: parts of arrays that begin at 0, and slices without their fixed dimensions.

mod laws;
mod parts;
mod slices;

pub use laws::moved_rows_are_arrays;
pub use parts::part_of_rows;
pub(crate) use slices::is_fixed;
pub use slices::slice_of_rows;
