//! The writes of a commit, in their order: what each image at each moment opens as, and which pages may differ.

mod bases;
mod laws;
mod pages;
mod placed;
mod records;
mod stopped;

pub use bases::commit_base;
pub use laws::commits_may_be_written;
pub use placed::Placed;
pub use records::commit_record;
pub use stopped::Stopped;
