//! Writing bytes to pages that follow one another.
ghost use Rattle.std.specs.Prelude.{◌≡◌, ◌+◌, ◌<◌, ◌≤◌, ◌^◌, length, IfOk, IfErr, OnOk};
ghost use Rattle.file_items.specs.Pages.{pages_needed};
ghost use Rattle.page_chain.specs.Pages.{page_size, HoldsBlob};
ghost use Rattle.backup_restoring.specs.Inner.Layout.{pages_from};
ghost use Rattle.backup_restoring.specs.Inner.Writing.{AwaitsBase, Fails, Writes};

use crate::fault::RestoreFault;
use afl_outside::{Disk, Failed, has_risen};
use cell_values::{List, Memory};
use page_chain::blob_pages;
use page_file::PageFile;
use std::alloc::Global;

/// So many pages from one on.
pub(crate) fn pages_from(alloc: Global, first: u32, count: u32) -> Result<List<u32>, Memory>
    requires { first + count < 2 ^ 32 }
    ensures { IfOk result (λ pages. pages ≡ pages_from first count) }
{
    let mut pages = List::with_capacity(alloc, count as usize)?;
    for page in first..first + count {
        pages.push(page)?;
    }
    Ok(pages)
}

/// Writes bytes as a blob to these pages.
fn write_to<D: Disk>(
    file: &mut PageFile<D>,
    first: u32,
    pages: &[u32],
    bytes: &[u8],
) -> Result<(), RestoreFault>
    requires awaits { AwaitsBase file.old.slots }
    requires least { 3 ≤ first }
    requires pages { pages.now ≡ pages_from first (pages_needed (length bytes.now)) }
    ensures written { OnOk result (Writes first (pages_needed (length bytes.now))
        (λ now. HoldsBlob page_size now (pages_from first (pages_needed (length bytes.now))) bytes.now)
        file.old.slots file.new.slots (D.moment file.old.disk) (D.moment file.new.disk)) }
    ensures fault { IfErr result (λ fault. Fails fault (D.moment file.old.disk).state (D.moment file.new.disk).state) }
{
    let before = file.faults();
    match file.write_blob(pages, bytes) {
        Ok(()) => Ok(()),
        Err(Failed) if has_risen(before, file.faults()) => Err(RestoreFault::Disk),
        Err(Failed) => Err(RestoreFault::Memory),
    }
}

/// Writes bytes as a blob to pages from one on, and answers these.
pub(crate) fn write_bytes<D: Disk>(
    alloc: Global,
    file: &mut PageFile<D>,
    first: u32,
    bytes: &[u8],
) -> Result<List<u32>, RestoreFault>
    requires awaits { AwaitsBase file.old.slots }
    requires least { 3 ≤ first }
    requires room { first + pages_needed (length bytes.now) < 2 ^ 32 }
    ensures pages { IfOk result (λ pages. pages ≡ pages_from first (pages_needed (length bytes.now))) }
    ensures written { OnOk result (Writes first (pages_needed (length bytes.now))
        (λ now. HoldsBlob page_size now (pages_from first (pages_needed (length bytes.now))) bytes.now)
        file.old.slots file.new.slots (D.moment file.old.disk) (D.moment file.new.disk)) }
    ensures fault { IfErr result (λ fault. Fails fault (D.moment file.old.disk).state (D.moment file.new.disk).state) }
{
    let count = blob_pages(bytes.len() as u64) as u32;
    match pages_from(alloc, first, count) {
        Ok(pages) => match write_to(file, first, pages.as_slice(), bytes) {
            Ok(()) => Ok(pages),
            Err(fault) => Err(fault),
        },
        Err(Memory) => Err(RestoreFault::Memory),
    }
}
