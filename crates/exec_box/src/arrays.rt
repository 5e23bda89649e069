//! Arrays cut to a box that then begins at 0, and slices without their fixed dimensions.

mod building;
mod numbers;
mod part_pieces;
mod schemas;
mod slice_pieces;
mod slices;
mod subarrays;
mod turns;

pub use numbers::{in_order, push_core};
pub use slices::{slice, slice_owned};
pub use subarrays::{subarray, subarray_owned};
pub use turns::in_turn;
