//! Aggregates of the cells around each cell.

mod corners;
mod runs;
mod skips;
mod states;
mod windows;

pub(crate) use corners::{reach_of, window_of};
pub(crate) use windows::windows_inside;
