//! Commits are prepared: with all memory that they need, before anything of them is written.

mod preparing;
mod slots;

pub use preparing::prepare;
