//! The store: an array database in a file, with the history of what was done since it was opened; what its start and its events tell of it, and the call that commits a change over it.
#![tactic(auto)]

mod changes;
mod store;
mod told;

pub use changes::{
    fresh_changes_are_left, fresh_changes_may_be_made, fresh_changes_stay, is_fresh,
    left_arrays_stay,
};
pub use prepared_commits::ReadFault;
pub use store::{FirstVersion, Start, Store, events_grow};
pub use store_opening::Limits;
pub use told::{
    CommitFault, a_pin_sees_what_was, commit, give_up, let_go, let_go_all, stores_are_told,
    stores_have_databases, turns_are_seen,
};
