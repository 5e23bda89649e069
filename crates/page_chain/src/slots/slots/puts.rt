//! A write that is synced, and a sync alone.
ghost use Rattle.std.specs.Prelude.{length, OnOk};
ghost use Rattle.afl_outside.specs.Disk.{FailsWithCause, IsSettled};
ghost use Rattle.page_chain.specs.Puts.{OnlyPuts, OnlySyncs, Put};

use afl_outside::{Disk, Failed};

/// Writes bytes at a place, and syncs them.
pub fn put<D: Disk>(disk: &mut D, at: u64, bytes: &[u8]) -> Result<(), Failed>
    ensures put { Put at bytes.now (D.moment disk.old) (D.moment disk.new) result }
    ensures writes { OnlyPuts at (length bytes.now) (D.moment disk.old) (D.moment disk.new) }
    ensures cause { FailsWithCause result (D.moment disk.old) (D.moment disk.new) }
{
    disk.write_at(at, bytes)?;
    match disk.sync() {
        Ok(()) => Ok(()),
        Err(Failed) => Err(Failed),
    }
}

/// Syncs what was written.
pub fn settle<D: Disk>(disk: &mut D) -> Result<(), Failed>
    ensures durable { OnOk result (IsSettled (D.moment disk.old) (D.moment disk.new)) }
    ensures syncs { OnlySyncs (D.moment disk.old) (D.moment disk.new) }
    ensures cause { FailsWithCause result (D.moment disk.old) (D.moment disk.new) }
{
    disk.sync()
}
