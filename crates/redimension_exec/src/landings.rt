//! Rows that land where several may land at one coordinate.

mod gathering;

pub(crate) use gathering::groups_from;
