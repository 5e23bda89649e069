//! Files of a few pages.

use afl_outside::MemDisk;
use cell_values::{Bytes, List, Memory};
use page_chain::OpenCause;
use std::alloc::Global;
use test_kit::{Transcript, changed, made, of_format_one, push_word};

/// Adds a page that begins with a link and has this number in each byte of the content.
fn add_page(file: &mut Bytes, link: u32, number: u8) -> Result<(), Memory> {
    file.extend(&link.to_le_bytes())?;
    file.extend(&[number; 4092])
}

/// A page 0 of zeros, and behind it pages that begin with these links and have their number in each byte of the content.
fn file_of(alloc: Global, links: &[u32]) -> Result<Bytes, Memory> {
    let mut file = Bytes::from_slice(alloc, &[0u8; 4096])?;
    let mut number = 0u8;
    for link in links {
        number = number.saturating_add(1);
        add_page(&mut file, *link, number)?;
    }
    Ok(file)
}

/// A disk with that file, these calls of which fail.
pub(crate) fn disk_of(alloc: Global, links: &[u32], fails: &[u64]) -> Result<MemDisk, Memory> {
    let file = file_of(alloc, links)?;
    Ok(MemDisk::new(file, List::from_slice(alloc, fails)?))
}

/// What was made, of which only memory can have been short.
fn or_short<E: Drop>(made: Result<Bytes, E>) -> Result<Bytes, Memory> {
    match made {
        Ok(file) => Ok(file),
        Err(_) => Err(Memory),
    }
}

/// A database that was made.
pub(crate) fn new_file(alloc: Global) -> Result<Bytes, Memory> {
    or_short(made(alloc))
}

/// An empty database of format 1.
pub(crate) fn old_file(alloc: Global) -> Result<Bytes, Memory> {
    or_short(of_format_one(alloc))
}

/// The file with these bytes over it at a place.
pub(crate) fn changed_file(
    alloc: Global,
    file: &Bytes,
    at: u64,
    bytes: &[u8],
) -> Result<Bytes, Memory> {
    or_short(changed(alloc, file, at, bytes))
}

/// Adds why a chain was not read, or a file not opened.
pub(crate) fn push_cause(out: &mut Transcript, cause: OpenCause) {
    match format!(in out.alloc(); "{cause}") {
        Ok(words) => {
            push_word(out, words.as_str());
            drop(words);
        }
        Err(_) => out.note_short(),
    }
}
