//! Checking: from the tree of a statement to what it is, typed, or to the first rule that it breaks.

mod changes;
mod statements;

pub use changes::{Target, array_call, create_array, cut_call, list_call};
pub use statements::{Typed, check};
