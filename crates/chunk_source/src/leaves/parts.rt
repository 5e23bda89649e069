//! Leaves of plans, read in part: the chunks that are wanted for a box, and the array of what they tell.

mod arrays;
mod gathering;
mod laws;
mod reading;

pub use laws::{known_rows_are_alike, known_rows_are_sound};
pub use reading::read_part;
