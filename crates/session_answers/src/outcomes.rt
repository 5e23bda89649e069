//! What comes of statements of sessions over a store that is shared, as it is said at places of the store's history.

mod laws;

pub use laws::{
    failures_are_noted, fresh_changes_are_left, outcomes_are_said, readings_are_told,
    replies_are_told,
};
