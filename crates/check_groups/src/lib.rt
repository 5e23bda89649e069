//! Checking aggregates, and `aggregate`, `regrid`, `window` and `cumulate` of a plan.
#![tactic(auto)]

mod aggregates;
mod groups;
mod names;

pub use aggregates::{aggregates_of, first_but_aggregates, leading_aggregates, leading_numbers};
pub use groups::{
    Blocks, Cumulation, Groups, Windows, aggregate_parts, block_sizes, cumulate_parts,
    regrid_parts, window_parts,
};
pub use names::{
    dimension_one, dimension_places, ended, is_given, named, push_attribute_names,
    push_dimension_names, with_ending,
};
