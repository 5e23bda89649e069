//! Plans, executed over a source of chunks.

mod compute;
mod given;
mod leaf;
mod needed;
mod operators;
mod results;
mod running;

pub use running::execute;
