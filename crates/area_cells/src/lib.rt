//! The cells of an array in a box, taken from the chunks whose cores meet it, and chunks made of the rows of their frames.
#![tactic(auto)]

mod bands;
mod bounds;
mod counting;
mod cutting;
mod finding;
mod framing;
mod gathering;
mod margins;
mod merging;
mod numbering;
mod stretches;

pub use bands::{count_in_band, half_of_bands, rows_of_chunks};
pub use bounds::bounds_of;
pub use chunk_cells::{assemble, broken_array, into_core_rows};
pub use counting::are_few;
pub use cutting::cut_chunk;
pub use finding::{Found, found_in};
pub use framing::{array_of_parts, chunk_of_rows};
pub use gathering::rows_in_area;
pub use margins::no_margins;
pub use numbering::numbers_of;
