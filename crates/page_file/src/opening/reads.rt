//! Pages that are read whole.
ghost use Rattle.std.specs.Prelude.{◌≡◌, length, IfSome, IfOk, IfErr, OnOk, MatchBool};
ghost use Rattle.page_chain.specs.Disk.{IsSettled};
ghost use Rattle.page_chain.specs.Puts.{OnlySyncs};
ghost use Rattle.page_file.specs.OpeningOpened.{HasPage, CutsPage, IsDeviceFault};

use page_chain::{Disk, Failed, OpenCause, PAGE, has_risen};

/// Reads a page, and says whether the disk has all of it.
pub(crate) fn read_page<D: Disk>(
    disk: &mut D,
    number: u32,
    page: &mut [u8],
) -> Result<bool, OpenCause>
    requires { length page.old ≡ 4096 }
    ensures size { length page.new ≡ 4096 }
    ensures bytes { IfSome (D.moment disk.old).state.seen
        (λ seen. IfOk result (λ whole. MatchBool whole (HasPage number page.new seen) (CutsPage number seen))) }
    ensures reads { OnlySyncs (D.moment disk.old) (D.moment disk.new) }
    ensures cause { IfErr result (λ fault. IsDeviceFault fault (D.moment disk.old).state (D.moment disk.new).state) }
{
    let before = disk.faults();
    match disk.read_at(number as u64 * PAGE as u64, page) {
        Ok(count) => Ok(count == PAGE),
        Err(Failed) if has_risen(before, disk.faults()) => Err(OpenCause::Disk),
        Err(Failed) => Err(OpenCause::Memory),
    }
}

/// Syncs what was written.
pub(crate) fn settle<D: Disk>(disk: &mut D) -> Result<(), OpenCause>
    ensures durable { OnOk result (IsSettled (D.moment disk.old) (D.moment disk.new)) }
    ensures reads { OnlySyncs (D.moment disk.old) (D.moment disk.new) }
    ensures cause { IfErr result (λ fault. IsDeviceFault fault (D.moment disk.old).state (D.moment disk.new).state) }
{
    let before = disk.faults();
    match disk.sync() {
        Ok(()) => Ok(()),
        Err(Failed) if has_risen(before, disk.faults()) => Err(OpenCause::Disk),
        Err(Failed) => Err(OpenCause::Memory),
    }
}
