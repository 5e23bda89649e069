//! The chunks of a leaf that meet a box, read, as an array of the rows that they tell; and plans with numbered leaves.

mod numbers;
mod parts;

pub use numbers::{known_rows_suffice, numbered_plans_mean_the_same};
pub use parts::{known_rows_are_alike, known_rows_are_sound, read_part};
