//! Chunks that are parts of rows, and what operators make of them.

mod held;
mod laws;
mod operator;

pub use held::{holds_cell, with_cells};
pub use laws::{arrays_are_sound, operators_are_local, parts_are_chunks};
pub use operator::ChunkOperator;
