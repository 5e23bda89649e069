//! Chunks that are changed cell by cell.

mod change;
mod chunks;

pub use change::{CellChange, Quick};
pub use chunks::change_chunk;
