//! The groups of rows by their numbers in some dimensions, and by blocks.

mod blocks;
mod by_keys;
mod keys;
mod named;

pub use by_keys::aggregate_groups;
pub use keys::Grouping;
pub(crate) use keys::key_at;
pub use named::zero;
