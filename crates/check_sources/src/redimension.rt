//! The parts of `redimension` besides its source.

mod redimension;
mod target;

pub use redimension::{Redimensioned, redimension_parts};
