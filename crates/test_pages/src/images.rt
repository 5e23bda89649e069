//! What a crash may leave of a file, and what that opens as.

use afl_outside::{Disk, MemDisk};
use cell_values::{Bytes, List, Memory};
use page_file::PageFile;
use std::alloc::Global;
use test_kit::{disk_of, kept_by, open, unsynced};

/// What a file opens as.
#[derive(Clone, Copy)]
pub(crate) enum Opens {
    /// As before the commit.
    Old,
    /// With the slot that was committed.
    New,
    /// With the root that was committed, in format 1.
    NewInFormatOne,
    /// Not at all, or as something else.
    Wrong,
}

/// What some files open as.
#[derive(Clone, Copy)]
pub(crate) struct Seen {
    pub(crate) old: bool,
    pub(crate) new: bool,
    pub(crate) new_in_format_one: bool,
    pub(crate) wrong: bool,
}

impl Seen {
    fn add(&mut self, opens: Opens) {
        match opens {
            Opens::Old => self.old = true,
            Opens::New => self.new = true,
            Opens::NewInFormatOne => self.new_in_format_one = true,
            Opens::Wrong => self.wrong = true,
        }
    }
}

/// The catalogue with which a base of this sequence is committed: five bytes, and four zeros in the first one.
pub(crate) fn catalogue_of(alloc: Global, sequence: u64) -> Result<Bytes, Memory> {
    if sequence == 1 {
        List::from_slice(alloc, &[0, 0, 0, 0])
    } else {
        let byte = (sequence % 256) as u8;
        List::from_slice(alloc, &[byte, byte, byte, byte, byte])
    }
}

/// The record that is committed.
pub(crate) const RECORD: [u8; 3] = [1, 2, 3];

fn has_catalogue<D: Disk>(alloc: Global, file: &mut PageFile<D>) -> Result<bool, Memory> {
    let root = file.root();
    let content = catalogue_of(alloc, root.sequence)?;
    match file.read_chain(alloc, root) {
        Ok((bytes, _)) => Ok(bytes.as_slice() == content.as_slice()),
        Err(_) => Ok(false),
    }
}

fn has_record<D: Disk>(alloc: Global, file: &mut PageFile<D>) -> bool {
    if file.records().len() != 1 {
        return false;
    }
    match file.read_record(alloc, 0, &[1, 2]) {
        Ok((bytes, _)) => bytes.as_slice() == &RECORD[..],
        Err(_) => false,
    }
}

/// What an opened file is, where the sequence was this one before the commit. The bytes are read too.
fn opens_in<D: Disk>(alloc: Global, file: &mut PageFile<D>, before: u64) -> Result<Opens, Memory> {
    if !has_catalogue(alloc, file)? {
        return Ok(Opens::Wrong);
    }
    let root = file.root();
    if root.sequence == before && file.records().len() == 0 {
        return Ok(Opens::Old);
    }
    if root.sequence == before && has_record(alloc, file) {
        return Ok(Opens::New);
    }
    if root.sequence == before.saturating_add(1) && file.records().len() == 0 {
        return Ok(if root.log == 0 {
            Opens::NewInFormatOne
        } else {
            Opens::New
        });
    }
    Ok(Opens::Wrong)
}

fn opens_as(alloc: Global, bytes: Bytes, before: u64) -> Result<Opens, Memory> {
    match open(disk_of(alloc, bytes, None)?) {
        Err(_) => Ok(Opens::Wrong),
        Ok(mut file) => {
            let opens = opens_in(alloc, &mut file, before);
            file.close();
            opens
        }
    }
}

fn add_images(
    alloc: Global,
    disk: &MemDisk,
    calls: usize,
    before: u64,
    fill: u8,
    seen: &mut Seen,
) -> Result<(), Memory> {
    let made = disk.calls();
    let writes = unsynced(&made[..calls.min(made.len())]);
    for pattern in 0..writes.saturating_add(2) {
        let kept = kept_by(alloc, pattern, writes)?;
        let image = disk.image(calls.min(made.len()) as u64, kept.as_slice(), fill)?;
        seen.add(opens_as(alloc, image, before)?);
    }
    Ok(())
}

/// What the images open as that a stop behind so many calls of the disk may leave: with every write kept, with none, and with each one
/// alone left out, filled with 0, 1 or 255.
pub(crate) fn seen_behind(
    alloc: Global,
    disk: &MemDisk,
    calls: usize,
    before: u64,
) -> Result<Seen, Memory> {
    let mut seen = Seen {
        old: false,
        new: false,
        new_in_format_one: false,
        wrong: false,
    };
    for fill in [0u8, 1, 255] {
        add_images(alloc, disk, calls, before, fill, &mut seen)?;
    }
    Ok(seen)
}
