//! The rows of an array in chunks, and arrays cut into chunks anew.

mod cores;
mod halos;
mod merging;
mod whole;

pub use crate::assembly::assemble;
pub use halos::{broken_array, with_halo};
pub use whole::{into_core_rows, into_rows, rows};
