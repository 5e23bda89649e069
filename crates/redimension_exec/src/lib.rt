//! `redimension`: where cells land and which land together, and the array of them.
#![tactic(auto)]

mod arrays;
mod dense;
mod filling;
mod landings;
mod moving;
mod places;
mod telling;

pub use area_cells::bounds_of;
pub use arrays::{groups_landed, redimension, redimension_cells};
