//! `window`: the windows of rows, and of a whole array.
#![tactic(auto)]

mod arrays;
mod chunks;
mod dense;

pub use arrays::window;
