//! Why a backup was not restored.

/// Why a backup was not restored.
#[derive(Clone, Copy)]
pub enum RestoreFault {
    /// The source failed.
    Source,
    /// The disk failed.
    Disk,
    /// The disk has bytes already.
    NotEmpty { length: u64 },
    /// The bytes are no backup: the offset of the first wrong item.
    NotBackup { at: u64 },
    /// The database needs more pages than are free.
    Full { needed: u32, free: u32 },
    /// The file that was made isn't read back, as this page tells.
    NotDatabase { page: u32 },
    Memory,
}
