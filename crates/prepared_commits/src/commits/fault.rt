//! Why a commit can't be prepared.

use cell_values::Memory;

/// Why a commit can't be prepared.
#[derive(Clone, Copy)]
pub enum PrepareFault {
    /// The database has the last sequence number that there is.
    SequenceEnd,
    /// The commit takes more pages than nobody can name.
    Full {
        /// How many pages it takes, or 2^32 - 1 where it takes more.
        needed: u32,
        /// How many nobody can name.
        free: u32,
    },
    Memory,
}

impl From<Memory> for PrepareFault {
    ghost use Rattle.std.specs.Prelude.{◌≡◌};
    ghost use Rattle.prepared_commits.specs.declared.commits.fault.PrepareFault.{PrepareFault};

    ghost from_gives = { λ _ e. e ≡ PrepareFault.Memory };

    fn from(_: Memory) -> PrepareFault {
        PrepareFault::Memory
    }
}
