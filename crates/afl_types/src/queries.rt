//! Checking of queries: from a tree to its typed plan over the stored arrays, or to the first rule that it breaks.

mod call;
mod content;
mod group_calls;
mod join_calls;
mod made;
mod moved_calls;
mod nested;
mod order_calls;
mod query;
mod shape_calls;
mod shaped_calls;
mod sources;

pub use call::{Call, OverSource, OverTwo};
pub use query::query_plan;
