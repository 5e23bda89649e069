//! The first fault of an array in chunks.

mod first;

pub use first::first_fault;
