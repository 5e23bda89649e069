//! The calls of a disk, as one in memory records them.
ghost use Rattle.std.specs.Prelude.{◌≡◌, IfOk};

use cell_values::{Bytes, Copies, Memory};

/// A call of a disk.
pub enum DeviceCall {
    /// The length was asked.
    Length,
    /// A read into a piece of so many bytes.
    Read { at: u64, length: u64 },
    /// A write of these bytes.
    Write { at: u64, bytes: Bytes },
    /// A sync, and whether it was done.
    Sync { done: bool },
}

impl Drop for DeviceCall {
    fn drop(self) {
        match self {
            DeviceCall::Length => {}
            DeviceCall::Read { at: _, length: _ } => {}
            DeviceCall::Write { at: _, bytes: _ } => {}
            DeviceCall::Sync { done: _ } => {}
        }
    }
}

impl DeviceCall {
    /// An equal call.
    pub fn copy(&self) -> Result<DeviceCall, Memory>
        ensures { IfOk result (λ copy. copy ≡ self.now) }
    {
        match self {
            DeviceCall::Length => Ok(DeviceCall::Length),
            DeviceCall::Read { at, length } => Ok(DeviceCall::Read {
                at: *at,
                length: *length,
            }),
            DeviceCall::Write { at, bytes } => Ok(DeviceCall::Write {
                at: *at,
                bytes: bytes.copy()?,
            }),
            DeviceCall::Sync { done } => Ok(DeviceCall::Sync { done: *done }),
        }
    }
}

impl Copies for DeviceCall {
    fn copy(&self) -> Result<DeviceCall, Memory> {
        self.copy()
    }
}
