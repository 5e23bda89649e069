//! The cells of a chunk put over those of another.

mod over;

pub use over::put_over;
