//! Groups of the cells of rows: by their numbers in some dimensions, by blocks, of many parts; and what groups tell.
#![tactic(auto)]

mod cores;
mod grouping;
mod places;
mod rows;
mod runs;
mod told;

pub use cores::rows_of_cores;
pub use grouping::{Grouping, aggregate_groups, zero};
pub use places::groups_of_places;
pub use rows::{
    Group, Groups, groups_in, groups_of, merge_all, merge_two, one_group, one_of_columns, take_rows,
};
pub use told::rows_told;
