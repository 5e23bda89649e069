//! A database's file: it is made, opened, read and written, slot by slot; and the writes of a commit in their order, with what each image at each moment opens as.
#![tactic(auto)]

mod commits;
mod files;
mod making;
mod opening;
mod page_writes;
mod writing;

pub use commits::{Placed, Stopped, commit_base, commit_record, commits_may_be_written};
pub use files::{BlobFault, OpenCause, PageFile};
pub use making::{InitFault, init};
pub use opening::open_slots;
pub use page_writes::puts_are_writes;
pub use writing::{write_blob, write_chain};
