//! `aggregate` and `regrid`: the groups of chunks, and of whole arrays chunk by chunk.
#![tactic(auto)]

mod parts;
mod pieces;

pub use parts::{aggregate_part, regrid_part, told_array};
pub use pieces::{aggregate, regrid};
