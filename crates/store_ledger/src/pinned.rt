//! Open pins as their sessions hold them.
use cell_values::Memory;
use logical_plan::Names;

/// An open pin.
pub struct Pinned {
    pub session: u32,
    /// The number of its entry, from 0.
    pub place: u64,
    /// What could be named when it began.
    pub names: Names,
}

impl Drop for Pinned {
    fn drop(self) {
        let Pinned {
            session: _,
            place: _,
            names: _,
        } = self;
    }
}

/// Why a session can't pin.
#[derive(Clone, Copy)]
pub enum PinFault {
    /// The history has no room for a pin and for what it would reserve.
    HistoryFull {
        /// How many entries stand.
        entries: u32,
    },
    Memory,
}

impl From<Memory> for PinFault {
    ghost use Rattle.std.specs.Prelude.{◌≡◌};
    ghost use Rattle.store_ledger.specs.declared.pinned.PinFault.{PinFault};

    ghost from_gives = { λ _ e. e ≡ PinFault.Memory };

    fn from(_: Memory) -> PinFault {
        PinFault::Memory
    }
}
