//! Stored arrays, read from a source of chunks.

mod fault;
mod leaf;

pub use fault::ExecFault;
pub(crate) use leaf::read_chunks;
