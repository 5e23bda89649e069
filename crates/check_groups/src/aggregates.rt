//! Aggregates among the arguments of a call.

mod aggregate;
mod sort;

pub use aggregate::aggregates_of;
pub use sort::{first_but_aggregates, leading_aggregates, leading_numbers};
