//! The lines that tell what a plan reads: of each of its leaves how many of the stored chunks it asks for.

mod asking;
mod boxes;
mod line;
mod lines;

pub use asking::{Asking, count_chunks};
pub use line::write_line;
pub use lines::plan_lines;
