//! Aggregates of groups of cells, chunk by chunk.

mod columns;
mod cores;
mod merged;
mod parts;

pub use merged::told_array;
pub use parts::{aggregate_part, regrid_part};
