//! The cells of an array: rows in row-major order and their laws, and cells in columns that contracts see as a list.
#![tactic(auto)]

mod columns;
mod rows;

pub use cell_values::{
    Attribute, Bounds, Broken, Bytes, Cell, ChunkAt, Code, Coord, Copies, Datum, Dimension, Kind,
    List, Margins, Memory, Schema, copy_numbers,
};
pub use columns::{Cells, Column, Form, Rows, Small, fault_of_cell, fault_of_value, small_value};
pub use rows::{cells_at_coordinates, is_in_box, rows_rise, same_cells_are_same_rows};
