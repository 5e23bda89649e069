//! Aggregates of the cells around each cell of an array.

mod pieces;

pub use pieces::window;
