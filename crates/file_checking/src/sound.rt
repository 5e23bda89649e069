//! What becomes of a check.
ghost use Rattle.std.specs.Prelude.{◌≡◌};

use cell_values::Memory;

/// How much a sound file holds.
#[derive(Clone, Copy)]
pub struct Sound {
    pub arrays: u32,
    /// The versions of all arrays.
    pub versions: u64,
    /// The chunks of all versions. One that several versions share is counted for each. The count
    /// stands still at 2^64 - 1.
    pub chunks: u64,
}

/// Why a file isn't sound, or wasn't checked.
#[derive(Clone, Copy)]
pub enum CheckFault {
    /// The disk failed.
    Disk,
    /// The file opens as no database, by this page.
    NotDatabase { page: u32 },
    /// The payload that begins at this page spells no chunk of its number.
    Damaged { page: u32 },
    /// The overlap of the payload that begins at this page doesn't hold its neighbours' cells.
    WrongOverlap { page: u32 },
    Memory,
}

impl From<Memory> for CheckFault {
    ghost use Rattle.file_checking.specs.declared.sound.CheckFault.TheVariants.{Memory as NoMemory};

    ghost from_gives = { λ _ fault. fault ≡ NoMemory };

    fn from(_e: Memory) -> CheckFault {
        CheckFault::Memory
    }
}
