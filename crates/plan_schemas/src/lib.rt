//! The schemas of plans.
#![tactic(auto)]

mod attributes;
mod dimensions;
mod extents;
mod places;
mod schema;

pub use logical_plan::{Plan, let_go};
pub use schema::{schema_of, schema_of_part, schema_of_slice};
