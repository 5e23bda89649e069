//! The chunks that a change writes.

mod alone;
mod changing;
mod input;
mod target;
mod unchanged;
mod versions;
mod wanted;

pub use changing::changed;
