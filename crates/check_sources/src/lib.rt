//! Queries that read no other query: builds, literals and stored arrays; and the parts of `redimension` besides its source.
#![tactic(auto)]

mod redimension;
mod sources;

pub use redimension::{Redimensioned, redimension_parts};
pub use sources::{build_call, meant, referred, scan_call};
