//! A `build` straight into chunks: each chunk's cells by walking its frame within the bounds.

mod cells;
mod chunks;
mod numbers;
mod quickly;

pub use chunks::built_array;
