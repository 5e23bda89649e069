//! The base of a store's history, of what is found in its file.

mod base;
mod laws;

pub use base::base_of;
pub use laws::{bases_begin, bases_lie_apart, directories_are_counted};
