//! `build`, `filter`, `apply` and `project`: a cell at a time, chunk by chunk and of whole arrays.
#![tactic(auto)]

mod arrays;
mod build;
mod chunks;
mod columns;

pub use arrays::{apply, filter, project};
pub use build::built_array;
pub use chunks::{apply_chunk, filter_chunk, project_chunk};
pub use columns::walk;
