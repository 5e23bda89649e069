//! Arrays in memory as sources of chunks.

mod found;
mod leaf_array;
mod mem_chunks;
mod sure_chunks;
mod turns;

pub use leaf_array::LeafArray;
pub use mem_chunks::MemChunks;
pub use sure_chunks::SureChunks;
