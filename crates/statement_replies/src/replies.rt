//! Replies to statements: a refusal's line, what a query gives over the arrays of a source, or the text of a change or a listing.

mod laws;
mod listings;
mod queries;
mod replies;
mod style;
mod texts;
mod traces;

pub use laws::{
    listed_arrays_stand, queries_have_their_replies, replies_have_kinds,
    replies_have_statement_kinds,
};
pub use listings::{accepted_reply, list_reply, show_reply, versions_reply};
pub use queries::answer_query;
pub(crate) use replies::or_fault;
pub use replies::{Reply, let_go_reply, refuse};
pub use style::Style;
pub use traces::change_lines;
