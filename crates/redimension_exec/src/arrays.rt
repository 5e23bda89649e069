//! Arrays whose cells are moved to coordinates that their values give.

mod arrays;
mod bands;
mod building;
mod cells;
mod chunks;
mod gathering;
mod groups;
mod ordering;

pub use arrays::redimension;
pub use cells::redimension_cells;
pub use groups::groups_landed;
