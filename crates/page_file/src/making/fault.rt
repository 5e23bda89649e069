//! Why a file was not made a database.

use thiserror::Error;

/// Why a file was not made a database.
#[derive(Clone, Copy, Debug, Error)]
pub enum InitFault {
    #[error("the disk failed")]
    Disk,
    #[error("the file has {length} bytes")]
    NotEmpty { length: u64 },
    #[error("no memory was found")]
    Memory,
}
