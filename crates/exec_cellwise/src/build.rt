//! `build`: its array, straight into chunks.

mod chunks;
mod rows;

pub use chunks::built_array;
