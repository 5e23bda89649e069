//! Why items could not be read.
ghost use Rattle.std.specs.Prelude.{◌≡◌};
ghost use Rattle.file_items.specs.declared.bytes.stop.Stop.TheVariants.{Memory as OutOfMemory};

use cell_values::Memory;

/// Why items could not be read.
#[derive(Clone, Copy)]
pub enum Stop {
    Memory,
    /// An item is wrong where so many bytes are left.
    Left(usize),
}

impl From<Memory> for Stop {
    ghost from_gives = { λ _ e. e ≡ OutOfMemory };

    fn from(_e: Memory) -> Stop {
        Stop::Memory
    }
}
