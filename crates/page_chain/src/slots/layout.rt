//! Where a database's root slots and its log stand in the pages of a file, and how they are read and written as bytes.

mod fields;
mod logs;
mod roots;
mod sides;

pub use logs::{LOG_ENTRIES, RecordAt, Records, log_in, record_body};
pub use roots::{OpenRoot, Root, current_in, root_body};
pub use sides::{Format, Side, Slot};

/// How many bytes a page has.
pub const PAGE: usize = 4096;
