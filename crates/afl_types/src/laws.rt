//! Laws of checking: what it answers is a typed plan, or a typed change.

mod laws;
mod names;

pub use laws::{
    checked_changes_are_typed, checked_plans_are_typed, created_places_are_names, parsed_leaves_fit,
};
pub use names::{checked_changes_say_their_names, checking_reads_names};
