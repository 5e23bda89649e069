//! What later entries of a history leave as it was; whether all that a change reads is as it was at its pin; and what a commit of it may then do.

mod changes;
mod commits;
mod laws;

pub use changes::{fresh_changes_are_left, is_fresh};
pub use commits::fresh_changes_may_be_made;
pub use laws::{fresh_changes_stay, left_arrays_stay};
