//! Sessions: the answers to statements over a store that is shared.

mod answering;
mod committing;
mod pinned;

pub use answering::answer;
