//! Why a blob or a chain was not read.
ghost use Rattle.std.specs.Prelude.{◌≡◌};

use cell_values::Memory;
use thiserror::Error;

/// Why a page was not read.
#[derive(Clone, Copy)]
pub(crate) enum Stopped {
    /// The disk failed.
    Disk,
    /// No memory was found.
    Memory,
}

/// Why a blob was not read.
#[derive(Clone, Copy, Debug, Error)]
pub enum BlobFault {
    #[error("the disk failed")]
    Disk,
    #[error("page {page} passes the end of the file")]
    Damaged { page: u32 },
    #[error("no memory was found")]
    Memory,
}

/// Why a file, or a part of it, was not opened.
#[derive(Clone, Copy, Debug, Error)]
pub enum OpenCause {
    #[error("the disk failed")]
    Disk,
    #[error("no database, by page {page}")]
    NotDatabase { page: u32 },
    #[error("no memory was found")]
    Memory,
}

impl From<Memory> for BlobFault {
    ghost use Rattle.page_chain.specs.declared.fault.BlobFault.TheVariants.{Memory as NoMemory};

    ghost from_gives = { λ _ fault. fault ≡ NoMemory };

    fn from(_e: Memory) -> BlobFault {
        BlobFault::Memory
    }
}

impl From<Memory> for OpenCause {
    ghost use Rattle.page_chain.specs.declared.fault.OpenCause.TheVariants.{Memory as NoMemory};

    ghost from_gives = { λ _ cause. cause ≡ NoMemory };

    fn from(_e: Memory) -> OpenCause {
        OpenCause::Memory
    }
}
