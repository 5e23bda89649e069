//! Names in the rules of operators: those that are made, and those of dimensions that stand among the arguments.

mod dimension;
mod ending;
mod list;

pub use dimension::{dimension_one, dimension_places};
pub use ending::{ended, is_given, named, with_ending};
pub use list::{push_attribute_names, push_dimension_names};
