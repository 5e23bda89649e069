//! The cells of an array as rows in row-major order: look-ups, parts, unions and changes of them, and their laws.

mod boxes;
mod laws;

pub use boxes::is_in_box;
pub use laws::{cells_at_coordinates, rows_rise, same_cells_are_same_rows};
