//! The call that commits a change over a store; what the start and the events of a store tell of it, and what turns of several sessions find and add.

mod commits;
mod told;

pub use commits::{CommitFault, commit, give_up};
pub use told::{
    a_pin_sees_what_was, let_go, let_go_all, stores_are_told, stores_have_databases, turns_are_seen,
};
