//! Why a plan gave no array.
ghost use Rattle.std.specs.Prelude.{◌≡◌};
ghost use Rattle.chunk_source.specs.Faults.{fault_from};

use crate::sources::SourceFault;
use cell_values::Memory;

/// Why a plan gave no array.
#[derive(Clone, Copy)]
pub enum ExecFault {
    /// The source could not be read.
    Source,
    /// What the source read is not what was once written to this page.
    Damaged { page: u32 },
    Memory,
}

impl From<SourceFault> for ExecFault {
    ghost from_gives = { λ given made. made ≡ fault_from given };

    fn from(fault: SourceFault) -> ExecFault {
        match fault {
            SourceFault::Failed => ExecFault::Source,
            SourceFault::Damaged { page } => ExecFault::Damaged { page },
            SourceFault::Memory => ExecFault::Memory,
        }
    }
}

impl From<Memory> for ExecFault {
    ghost use Rattle.chunk_source.specs.declared.reading.fault.ExecFault.TheVariants.{Memory};

    ghost from_gives = { λ _ made. made ≡ Memory };

    fn from(_: Memory) -> ExecFault {
        ExecFault::Memory
    }
}
