//! `join` and `cross_join` of whole arrays, chunk by chunk.
#![tactic(auto)]

mod arrays;
mod beside;
mod cross;
mod partners;

pub use arrays::{cross_join, join};
