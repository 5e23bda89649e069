//! Lists of pages as items: as many as so many bytes lie in, with their count before them.

mod reading;
mod writing;

pub use reading::{pages, positive};
pub use writing::{put_count, put_pages};
