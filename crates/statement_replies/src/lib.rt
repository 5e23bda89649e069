//! Replies to statements, and answers to them over the arrays of a source: a refusal's line, what a query gives, the text of a change or a listing, or a change that may be committed.
#![tactic(auto)]

mod answers;
mod replies;

pub use answers::{Outcome, forms_are_said, outcome_of};
pub use replies::{
    Reply, Style, accepted_reply, answer_query, change_lines, let_go_reply, list_reply,
    listed_arrays_stand, queries_have_their_replies, refuse, replies_have_kinds,
    replies_have_statement_kinds, show_reply, versions_reply,
};
