//! The schemas of two arrays side by side, and the pairs of dimensions of `cross_join`.
#![tactic(auto)]

mod beside;
mod cross;
mod free;
mod join;

pub use check_groups::{Blocks, Groups, Windows, aggregate_parts, regrid_parts, window_parts};
pub use cross::{Crossed, cross_parts};
pub use free::free_name;
pub use join::{join_schema, same_bounds};
