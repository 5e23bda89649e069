//! Files of a few pages, as disks in memory.
ghost use Rattle.std.specs.Prelude.{IfOk};
ghost use Rattle.page_file.specs.OpeningOpened.{AreFresh};

use afl_outside::{Disk, Failed, MemDisk};
use anyhow::Result;
use cell_values::{Bytes, List, Memory};
use page_chain::OpenCause;
use page_file::{InitFault, PageFile, init};
use std::alloc::Global;

/// A disk with these bytes, whose call of this number fails.
pub fn disk_of(alloc: Global, bytes: Bytes, fails: Option<u64>) -> Result<MemDisk, Memory> {
    let mut numbers = List::new(alloc);
    if let Some(call) = fails {
        numbers.push(call)?;
    }
    Ok(MemDisk::new(bytes, numbers))
}

/// The bytes that a disk holds.
pub fn disk_bytes(disk: &MemDisk) -> Result<Bytes, Memory> {
    disk.image(disk.calls().len() as u64, &[], 0)
}

/// Opens a file. Nothing was written to its slots yet.
pub fn open<D: Disk>(disk: D) -> Result<PageFile<D>, (OpenCause, D)>
    ensures { IfOk result (λ file. AreFresh file.slots) }
{
    PageFile::open(disk)
}

fn make<D: Disk>(disk: &mut D) -> Result<(), InitFault> {
    init(disk)
}

fn write<D: Disk>(disk: &mut D, at: u64, bytes: &[u8]) -> Result<(), Failed> {
    disk.write_at(at, bytes)
}

/// An empty file that was made a database.
pub fn made(alloc: Global) -> Result<Bytes> {
    let mut disk = disk_of(alloc, List::new(alloc), None)?;
    made_on(&mut disk)
}

fn made_on(disk: &mut MemDisk) -> Result<Bytes> {
    make(disk)?;
    Ok(disk_bytes(disk)?)
}

/// The file with these bytes over it at a place.
pub fn changed(alloc: Global, file: &Bytes, at: u64, bytes: &[u8]) -> Result<Bytes> {
    let mut disk = disk_of(alloc, file.copy()?, None)?;
    changed_on(&mut disk, at, bytes)
}

fn changed_on(disk: &mut MemDisk, at: u64, bytes: &[u8]) -> Result<Bytes> {
    write(disk, at, bytes)?;
    Ok(disk_bytes(disk)?)
}

/// Sequence 1, and a catalogue of 4 bytes in page 1.
const FIRST_BODY: [u8; 20] = [1, 0, 0, 0, 0, 0, 0, 0, 4, 0, 0, 0, 0, 0, 0, 0, 1, 0, 0, 0];

/// An empty database of format 1, whose slot A is open.
pub fn of_format_one(alloc: Global) -> Result<Bytes> {
    let zeros = List::from_vec(vec![in alloc; 0u8; 8192]?);
    let head = changed(alloc, &zeros, 0, b"AFLSTORE\x01")?;
    let open = changed(alloc, &head, 512, &[1])?;
    changed(alloc, &open, 520, &FIRST_BODY)
}

/// The first bytes of a file.
pub fn cut(alloc: Global, file: &Bytes, length: usize) -> Result<Bytes, Memory> {
    let bytes = file.as_slice();
    List::from_slice(alloc, &bytes[..length.min(bytes.len())])
}
