//! Which pages of a file are live, and how many may be given out.
#![tactic(auto)]

mod page_set;

pub use cell_values::{Copies, List, Memory, Name};
pub use page_set::{PageSet, free_of, is_in, live};
