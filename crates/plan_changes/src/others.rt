//! What a change leaves as it is, and the names that it has.

mod laws;
mod named;

pub use laws::other_arrays_stay;
pub use named::has_its_names;
