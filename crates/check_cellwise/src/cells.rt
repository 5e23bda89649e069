//! Operators that keep the places of cells: `filter`, `apply` and `project`, over a source that is checked.

mod apply;
mod filter;
mod project;
mod source;

pub use apply::apply_call;
pub use filter::filter_call;
pub use project::{attribute_places, project_call};
