//! What a walk over columns finds of an expression.

mod smalls;
mod walking;

pub use walking::walk;
pub(crate) use walking::{names_dimension, walk_at};
