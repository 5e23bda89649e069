//! Windows of cells whose values are numbers, by their places in a grid.

mod centres;
mod columns;
mod grids;
mod numbers;

pub(crate) use centres::{all_full, chunk_of_windows, columns_of};
pub(crate) use grids::{fits, grid_between, grid_from, offsets, window_grid};
