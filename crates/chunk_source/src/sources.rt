//! Where plans read the chunks of stored arrays.

mod asked;
mod fault;
mod source;

pub use asked::Asked;
pub use fault::SourceFault;
pub use source::ChunkSource;
