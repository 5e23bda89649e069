//! Checking: from the tree of a statement to what it is, typed, or to the first rule that it breaks, queries and their plans among it; and the laws of that.
#![tactic(auto)]

mod laws;
mod queries;
mod types;

pub use check_rules::TypeFault;
pub use laws::{
    checked_changes_are_typed, checked_changes_say_their_names, checked_plans_are_typed,
    checking_reads_names, created_places_are_names, parsed_leaves_fit,
};
pub use queries::{Call, OverSource, OverTwo, query_plan};
pub use types::{Target, Typed, array_call, check, create_array, cut_call, list_call};
