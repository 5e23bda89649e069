//! Literals: the rows that a text spells for an array of one dimension.

mod laws;
mod literal;
mod rows;

pub use laws::literals_are_read;
pub use rows::literal_rows;
