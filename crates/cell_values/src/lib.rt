//! The values of cells, their schemas, and the arithmetic and logic of expressions.
#![tactic(auto)]

pub mod coord;
pub mod datum;
pub mod limits;
pub mod list;
pub mod memory;
pub mod name;
mod orders;
pub mod schema;
pub mod table;

pub use coord::{
    ChunkAt, Coord, Margins, compare_numbers, coord_of, copy_coord, copy_numbers, number_at,
    row_major,
};
pub use datum::{Broken, Cell, Code, CompareOp, Datum, FaultKind, Row};
pub use limits::{
    MAX_ATTRIBUTES, MAX_BOUND, MAX_DIMENSIONS, MAX_FRAME, MAX_NAME, MAX_STATEMENT, MAX_TEXT,
};
pub use list::{Bytes, Copies, List};
pub use memory::Memory;
pub use name::{Name, Span};
pub use schema::{Attribute, Bounds, Dimension, Kind, Schema};
pub use table::{add, and3, compare, div, mul, neg, not3, or3, rem, sub};
