//! Groups of the cells at places of a grid, straight from the columns in which their values stand: no row is made of a cell.

mod runs;
mod states;

pub use runs::groups_of_places;
pub(crate) use states::with_column;
