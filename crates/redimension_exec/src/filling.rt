//! Chunks of a target without margins, filled with the rows that land as they come.

mod chunks;

pub(crate) use chunks::{Filled, fill};
