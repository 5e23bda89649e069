//! Names and schemas as bytes: one spelling, and where the first wrong item begins.

mod attributes;
mod dimensions;
mod names;
mod schemas;
mod writing;

pub use names::name;
pub use schemas::schema;
pub use writing::{put_name, put_schema};
