//! The parts of `regrid`, `window`, `aggregate` and `cumulate` besides their sources.

mod aggregate;
mod cumulate;
mod number;
mod regrid;
mod source;
mod window;

pub use aggregate::{Groups, aggregate_parts};
pub use cumulate::{Cumulation, cumulate_parts};
pub use regrid::{Blocks, block_sizes, regrid_parts};
pub use window::{Windows, window_parts};
