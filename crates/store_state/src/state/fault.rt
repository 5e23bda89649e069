//! Why a store gives no chunk.

/// Why a chunk can't be read.
#[derive(Clone, Copy)]
pub enum ReadFault {
    /// The disk failed.
    Disk,
    /// The payload that begins at this page isn't whole.
    Damaged { page: u32 },
    Memory,
}
