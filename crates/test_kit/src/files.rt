//! What the programs over files share: files of a few pages, as disks in memory, a commit of each kind, and what a stop may leave.

mod commits;
mod files;
mod images;

pub use commits::{commit_base, commit_record};
pub use files::{changed, cut, disk_bytes, disk_of, made, of_format_one, open};
pub use images::{kept_by, unsynced};
