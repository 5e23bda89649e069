//! What a session answers to a statement over a shared store: a reply with its place in the store's history, and what that tells.
#![tactic(auto)]

mod answers;
mod outcomes;
mod replies;
mod turns;

pub use answers::answer;
pub use outcomes::{
    failures_are_noted, fresh_changes_are_left, outcomes_are_said, readings_are_told,
    replies_are_told,
};
pub use replies::{
    Reply, a_damaged_page_is_told, at_place, fresh_changes_are_said, pins_are_entered, refusal_at,
    refusal_or_want, replies_stay, some_replies_are_told, uncommitted, unread, want,
};
pub use statement_replies::Style;
pub use turns::{Options, answer_held};
