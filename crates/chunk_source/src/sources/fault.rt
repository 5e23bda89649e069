//! Why a source gave no chunk.
ghost use Rattle.std.specs.Prelude.{◌≡◌};

use cell_values::Memory;

/// Why a source gave no list or no chunk.
#[derive(Clone, Copy)]
pub enum SourceFault {
    /// It could not be read.
    Failed,
    /// What was read is not what was once written to this page.
    Damaged { page: u32 },
    Memory,
}

impl From<Memory> for SourceFault {
    ghost use Rattle.chunk_source.specs.declared.sources.fault.SourceFault.TheVariants.{Memory};

    ghost from_gives = { λ _ fault. fault ≡ Memory };

    fn from(_: Memory) -> SourceFault {
        SourceFault::Memory
    }
}
