//! Cells that are kept in columns and that contracts see as a list of cells.

mod cells;
mod column;
mod faults;
mod filling;
mod forms;
mod rows;
mod small;

pub use cells::Cells;
pub use column::Column;
pub use faults::{fault_of_cell, fault_of_value};
pub use forms::Form;
pub use rows::Rows;
pub use small::{Small, small_value};
