//! What is known of the slots of a file.

use crate::slots::layout::{OpenRoot, RecordAt, Records, Root};

/// What is known of the root slot that isn't current.
#[derive(Clone, Copy)]
pub enum RootSlot {
    /// Its gate is closed on the disk, and its body may be anything.
    Closed,
    /// Its gate may stand open, on an older root.
    Older,
    /// Its gate is closed on the disk, and its body has this root.
    Written(Root),
    /// Its gate may stand open, on this root.
    Opening(Root),
}

/// What is known of the log entry behind the open ones.
#[derive(Clone, Copy)]
pub enum NextEntry {
    /// Its gate is closed on the disk, and its body may be anything.
    Closed,
    /// Its gate is closed on the disk, and its body has this record.
    Written(RecordAt),
    /// Its gate may stand open, on this record.
    Opening(RecordAt),
}

/// What a commit is to open.
#[derive(Clone, Copy)]
pub enum Target {
    /// The root slot that isn't current.
    Root,
    /// The log entry behind the open ones.
    Record,
}

/// The slots of a file.
#[derive(Drop)]
pub struct Slots {
    pub current: OpenRoot,
    /// The records of the open log entries.
    pub records: Records,
    pub target: Target,
    pub other: RootSlot,
    pub next: NextEntry,
    /// A call on the target failed, and it wasn't closed since.
    pub doubtful: bool,
    /// A page that was written as zeros since the target was chosen, and not again.
    pub zeroed: Option<u32>,
}
