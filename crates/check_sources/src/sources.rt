//! Queries that read no other query: builds, literals, and stored arrays.

mod build;
mod stored;

pub use build::{build_call, meant};
pub use stored::{referred, scan_call};
