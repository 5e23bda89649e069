//! The numbers along a dimension of a `build`, and its values.

mod build;

pub(crate) use build::{count_of, fitted, number_at};
