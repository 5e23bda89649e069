//! Why a change isn't committed.

/// Why a change isn't committed. Each place is the number of entries then.
#[derive(Clone, Copy)]
pub enum CommitFault {
    /// The database has the last sequence number that there is.
    SequenceEnd {
        place: u64,
    },
    /// The commit takes more pages than nobody can name.
    Full {
        /// How many pages it takes, or 2^32 - 1 where it takes more.
        needed: u32,
        /// How many nobody can name.
        free: u32,
        place: u64,
    },
    /// The disk failed.
    Disk {
        place: u64,
    },
    Memory,
}
