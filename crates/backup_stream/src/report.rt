//! What becomes of a backup.

/// Why a backup ends.
#[derive(Clone, Copy)]
pub enum BackupEnd {
    /// All of it went out.
    Whole,
    /// The sink failed.
    Sink,
    /// The disk failed.
    Disk,
    /// What was read is not what was once written to this page.
    Damaged { page: u32 },
    /// The history had no room for a pin.
    HistoryFull,
    Memory,
}

/// A backup that ended.
#[derive(Drop)]
pub struct BackupReport<K> {
    /// The sink that it went to.
    pub sink: K,
    /// How many entries of the history come before what it holds: its own pin is the last of them.
    /// Where the history had no room for a
    /// pin, how many entries there were; where memory was short before the pin, 0.
    pub place: u64,
    pub end: BackupEnd,
}
