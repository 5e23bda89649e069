//! Groups of cells with the states of their aggregates, and the groups of many parts put together.

mod columns;
mod forming;
mod groups;
mod merging;
mod states;
mod tree;
mod united;

pub use columns::one_of_columns;
pub(crate) use forming::is_at;
pub use forming::{groups_of, one_group};
pub use groups::{Group, Groups};
pub use merging::merge_two;
pub(crate) use states::{no_states, with_cells};
pub use tree::{groups_in, take_rows};
pub use united::merge_all;
