//! `transpose`, `reverse`, `unpack`, `xgrid`, `merge` and `concat` of whole arrays.
#![tactic(auto)]

mod blocks;
mod cell_maps;
mod chunk_numbers;
mod concatenation;
mod coord_maps;
mod found_chunks;
mod mapped_arrays;
mod merging;
mod numbered_cells;
mod pair_numbers;
mod reversal;
mod row_order;
mod transposition;
mod unpacking;

pub use blocks::{Part, xgrid};
pub use concatenation::concat;
pub use merging::merge;
pub use reversal::reverse;
pub use transposition::transpose;
pub use unpacking::unpack;
