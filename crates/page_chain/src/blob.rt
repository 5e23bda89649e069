//! Blobs: bytes in listed pages.
ghost use Rattle.std.specs.Prelude.{◌≡◌, length, IfSome, IfOk, OnOk, IsErrOf};
ghost use Rattle.afl_outside.specs.Disk.{FailsWithCause};
ghost use Rattle.afl_outside.specs.Counts.{Rose};
ghost use Rattle.page_chain.specs.Pages.{page_size, pages_for, AreDistinct, IsBlobRead, HoldsBlob};
ghost use Rattle.page_chain.specs.Places.{KeepsPages};
ghost use Rattle.page_chain.specs.Inner.Runs.{OnlyReads, OnlyWrites, Sees};

use crate::fault::{BlobFault, Stopped};
use crate::page::{PAGE, put_front, read_page, write_page};
use afl_outside::{Disk, Failed};
use cell_values::{Bytes, List};
use std::alloc::Global;

/// How many pages a blob of so many bytes has.
pub fn blob_pages(count: u64) -> u64
    ensures { result ≡ pages_for page_size count }
{
    count.div_ceil(PAGE as u64)
}

/// Reads a blob of so many bytes.
pub fn read_blob<D: Disk>(
    alloc: Global,
    disk: &mut D,
    pages: &[u32],
    count: u64,
) -> Result<Bytes, BlobFault>
    requires { length pages.now ≡ pages_for page_size count }
    ensures exact { IfSome (D.moment disk.old).state.seen (λ seen. IsBlobRead seen pages.now count result) }
    ensures size { IfOk result (λ bytes. length bytes ≡ count) }
    ensures fault { IsErrOf result BlobFault.Disk → Rose (D.moment disk.old).state.faults (D.moment disk.new).state.faults }
    ensures reads { OnlyReads (D.moment disk.old) (D.moment disk.new) }
{
    let mut bytes = List::new(alloc);
    let mut piece = [0u8; PAGE];
    for page in pages {
        match read_page(disk, *page, &mut piece) {
            Ok(true) => bytes.extend(&piece)?,
            Ok(false) => return Err(BlobFault::Damaged { page: *page }),
            Err(Stopped::Disk) => return Err(BlobFault::Disk),
            Err(Stopped::Memory) => return Err(BlobFault::Memory),
        }
    }
    bytes.truncate(count as usize);
    Ok(bytes)
}

/// Writes bytes as a blob.
pub fn write_blob<D: Disk>(disk: &mut D, pages: &[u32], bytes: &[u8]) -> Result<(), Failed>
    requires distinct { AreDistinct pages.now }
    requires pages { length pages.now ≡ pages_for page_size (length bytes.now) }
    ensures seen { Sees (D.moment disk.old).state (D.moment disk.new).state
        (λ seen now. KeepsPages pages.now seen now × OnOk result (HoldsBlob page_size now pages.now bytes.now)) }
    ensures cause { FailsWithCause result (D.moment disk.old) (D.moment disk.new) }
    ensures writes { OnlyWrites pages.now (D.moment disk.old) (D.moment disk.new) }
{
    let mut piece = [0u8; PAGE];
    let mut rest = bytes;
    for page in pages {
        rest = put_front(&mut piece, rest);
        write_page(disk, *page, &piece)?;
    }
    Ok(())
}
