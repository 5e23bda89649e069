//! Chunks that hold what landed, told in order.

mod chunks;
mod rows;

pub(crate) use chunks::told_array;
