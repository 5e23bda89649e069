//! Checking `sort`, `rank`, `reverse`, `unpack`, `xgrid`, `merge` and `concat` of plans: the rules of their own.
#![tactic(auto)]

mod bounds;
mod names;
mod numbered;
mod pairs;
mod rank;
mod reverse;
mod rules;
mod sort;
mod unpack;
mod xgrid;

pub use pairs::{check_concat, check_merge};
pub use rank::{Ranking, rank_parts};
pub use reverse::check_reverse;
pub use sort::{SortKeys, sort_parts};
pub use unpack::unpack_parts;
pub use xgrid::xgrid_parts;
