//! Plans rewritten.
#![tactic(auto)]

mod nodes;
mod places;
mod rewriting;

pub use rewriting::{rewrite, rewritten};
