//! Checking: from the tree of a statement to what it is, typed, or to the first rule that it breaks.

mod checking;
mod statement;

pub use checking::{Typed, check};
