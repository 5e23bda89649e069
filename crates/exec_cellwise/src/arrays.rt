//! Arrays through the operators that go cell by cell.

mod arrays;
mod operators;

pub use arrays::{apply, filter, project};
