//! Chains and blobs that are read and written in files of a few pages.

use crate::files::{disk_of, push_cause};
use crate::writing::write_two;
use afl_outside::MemDisk;
use cell_values::{Bytes, Memory};
use page_chain::{BlobFault, Link, blob_pages, read_blob, read_chain};
use test_kit::{Transcript, push_count, push_word, push_words};

/// Adds how many bytes there are, and the first and the last of them.
fn push_bytes(out: &mut Transcript, bytes: &Bytes) {
    let bytes = bytes.as_slice();
    push_count(out, bytes.len() as u64);
    push_word(out, " bytes, ");
    push_count(out, u64::from(bytes.first().copied().unwrap_or(0)));
    push_word(out, " to ");
    push_count(out, u64::from(bytes.last().copied().unwrap_or(0)));
}

fn push_pages(out: &mut Transcript, pages: &[u32]) {
    push_word(out, "pages");
    for page in pages {
        push_word(out, " ");
        push_count(out, u64::from(*page));
    }
    push_word(out, ", ");
}

/// Reads a chain whose first link stands in page 9, and adds it.
fn push_chain(out: &mut Transcript, disk: &mut MemDisk, first: u32, count: u64, taken: &[u32]) {
    let link = Link {
        holder: 9,
        page: first,
    };
    match read_chain(out.alloc(), disk, link, count, taken) {
        Ok((bytes, pages)) => {
            push_pages(out, pages.as_slice());
            drop(pages);
            push_bytes(out, &bytes);
            drop(bytes);
        }
        Err(cause) => push_cause(out, cause),
    }
    push_word(out, "\n");
}

/// A chain in a file whose pages from 1 on have these links.
fn push_linked(
    out: &mut Transcript,
    title: &str,
    links: &[u32],
    first: u32,
    count: u64,
    taken: &[u32],
) {
    push_words(out, &[title, ": "]);
    match disk_of(out.alloc(), links, &[]) {
        Ok(mut disk) => {
            push_chain(out, &mut disk, first, count, taken);
            drop(disk);
        }
        Err(Memory) => out.note_short(),
    }
}

fn push_fault(out: &mut Transcript, fault: BlobFault) {
    match format!(in out.alloc(); "{fault}") {
        Ok(words) => {
            push_word(out, words.as_str());
            drop(words);
        }
        Err(_) => out.note_short(),
    }
}

/// Reads a blob, and adds it.
fn push_blob(out: &mut Transcript, disk: &mut MemDisk, pages: &[u32], count: u64) {
    if pages.len() as u64 != blob_pages(count) {
        push_word(out, "another number of pages");
    } else {
        match read_blob(out.alloc(), disk, pages, count) {
            Ok(bytes) => {
                push_bytes(out, &bytes);
                drop(bytes);
            }
            Err(fault) => push_fault(out, fault),
        }
    }
    push_word(out, "\n");
}

/// A blob in a file of two pages, these calls of which fail.
fn push_paged(out: &mut Transcript, title: &str, fails: &[u64], pages: &[u32], count: u64) {
    push_words(out, &[title, ": "]);
    match disk_of(out.alloc(), &[0, 1], fails) {
        Ok(mut disk) => {
            push_blob(out, &mut disk, pages, count);
            drop(disk);
        }
        Err(Memory) => out.note_short(),
    }
}

/// Writes a chain to pages 2 and 1 of an empty disk, then a blob to pages 4 and 3, and reads the chain.
fn push_two(out: &mut Transcript, disk: &mut MemDisk) {
    if write_two(disk) {
        push_chain(out, disk, 2, 5000, &[]);
    } else {
        push_word(out, "not written\n");
    }
}

/// The same where one call of the disk fails.
fn push_written(out: &mut Transcript, fails: u64) {
    push_word(out, "call ");
    push_count(out, fails);
    push_word(out, " fails: ");
    match disk_of(out.alloc(), &[], &[fails]) {
        Ok(mut disk) => {
            push_two(out, &mut disk);
            drop(disk);
        }
        Err(Memory) => out.note_short(),
    }
}

fn push_read(out: &mut Transcript) {
    push_linked(out, "one page", &[0], 1, 4092, &[]);
    push_linked(out, "two pages", &[0, 1], 2, 4093, &[]);
    push_linked(out, "no bytes", &[0], 1, 0, &[]);
    push_linked(out, "page 0", &[0], 0, 1, &[]);
    push_linked(out, "past the end", &[0, 3], 2, 4093, &[]);
    push_linked(out, "a page that is taken", &[0, 1], 2, 4093, &[1]);
    push_linked(out, "a cycle", &[2, 1], 1, 12276, &[]);
    push_linked(out, "a page that names itself", &[1], 1, 4093, &[]);
    push_linked(out, "a link that is missing", &[0, 1], 2, 8185, &[]);
    push_linked(out, "a link behind the last page", &[0, 1], 2, 4092, &[]);
}

/// Adds what is answered where chains and blobs are read, and where they are written and a call of the disk fails.
pub(crate) fn push_chains(out: &mut Transcript) {
    push_word(out, "### chains\n");
    push_read(out);
    push_paged(out, "a blob", &[], &[2, 1], 4097);
    push_paged(out, "a blob of nothing", &[], &[], 0);
    push_paged(out, "a blob past the end", &[], &[2, 4, 1, 3], 16384);
    push_paged(out, "a blob whose second read fails", &[1], &[2, 1], 8192);
    for fails in 0..7 {
        push_written(out, fails);
    }
}
