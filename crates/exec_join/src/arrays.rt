//! Joins of arrays.

mod cross_numbers;
mod cross_pieces;
mod crossed;
mod meeting;
mod pieces;

pub use crossed::cross_join;
pub use pieces::join;
