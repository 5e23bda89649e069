//! Arrays cut to boxes.

mod between;

pub use between::between_chunk;
