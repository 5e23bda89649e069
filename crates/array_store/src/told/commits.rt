//! The call that commits a change over a store: it prepares the commit and seals it.

mod committing;
mod fault;

pub use committing::{commit, give_up};
pub use fault::CommitFault;
