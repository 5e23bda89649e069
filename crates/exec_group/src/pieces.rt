//! Aggregates of an array's cells, chunk by chunk: the groups of each chunk, put together.

mod aggregates;
mod blocks;
mod parts;

pub use aggregates::aggregate;
pub use blocks::regrid;
