//! Arrays in chunks, made of the rows of their cells.

mod arrays;
mod near;
mod numbers;
mod parts;

pub use arrays::assemble;
