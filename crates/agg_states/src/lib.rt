//! States of aggregates: each stands for a set of cells, takes further cells in any order, and unites with the state of other cells.
#![tactic(auto)]

mod laws;
mod parts;
mod state;

pub use laws::order_does_not_matter;
pub use state::AggState;
