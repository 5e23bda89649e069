//! What sessions do with a store that one of them has in hand: pins, and commits of what texts are.

mod commits;
mod opening;
mod pairs;
mod pins;

pub(crate) use commits::once;
pub use opening::{let_go_store, limits_of, opened};
pub use pairs::{SessionPair, answer_of_pair, pair_over, push_counts};
