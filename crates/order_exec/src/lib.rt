//! `sort`, `rank` and `cumulate`.
#![tactic(auto)]

mod array_cumulates;
mod array_ranks;
mod array_sorts;
mod column_ranks;
mod core_hulls;
mod counting_sorts;
mod group_numbers;
mod group_places;
mod keys;
mod line_parts;
mod line_starts;
mod margins;
mod number_chunks;
mod number_counts;
mod number_keys;
mod number_sorts;
mod numbered_chunks;
mod rank_groups;
mod ranked_chunks;
mod ranked_rows;
mod running_chunks;
mod running_rows;
mod sorted_cells;
mod sorted_groups;
mod state_values;
mod value_counts;

pub use array_cumulates::cumulate;
pub use array_ranks::rank;
pub use array_sorts::sort;
pub use core_hulls::box_of_cores;
pub use group_rows::Group;
pub use line_parts::{Lines, cumulate_chunk, join_lines, line_part};
pub use number_sorts::grid_between;
