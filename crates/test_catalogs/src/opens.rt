//! What a file keeps, in words.
ghost use Rattle.std.specs.Prelude.{◌≤◌, length};

use crate::digits::changed;
use crate::told::{push_counted, push_named, push_numbers};
use afl_outside::{Disk, MemDisk};
use cell_values::{Bytes, List, Memory};
use chunk_map::{DirEntry, Directory};
use file_meaning::Found;
use file_reading::read_found;
use page_chain::OpenCause;
use page_file::PageFile;
use std::alloc::Global;
use test_kit::{Transcript, disk_of, open, push_counts, push_word};
use version_catalog::{BlobAt, CatalogArray};

/// Adds an entry: its chunk number, how many bytes its payload has, which commit wrote it, and its pages.
fn push_entry(out: &mut Transcript, entry: &DirEntry) {
    push_word(out, "  chunk ");
    push_counts(out, entry.at.as_slice());
    push_counted(out, ": ", entry.length);
    push_counted(out, " bytes, commit ", entry.birth);
    push_numbers(out, ", pages", &entry.pages);
}

fn push_version(out: &mut Transcript, number: u32, at: &BlobAt, directory: &Directory) {
    push_counted(out, " version ", u64::from(number));
    push_counted(out, ": ", at.length);
    push_numbers(out, " bytes, pages", &at.pages);
    for entry in directory.entries.as_slice() {
        push_entry(out, entry);
    }
}

fn push_array(out: &mut Transcript, array: &CatalogArray, row: &List<Directory>) {
    push_named(out, "array ", &array.entry.name);
    push_counted(out, ", next ", u64::from(array.entry.next));
    push_word(out, "\n");
    for (place, number) in array.entry.versions.as_slice().iter().enumerate() {
        if let (Some(at), Some(directory)) = (array.directories.get(place), row.get(place)) {
            push_version(out, *number, at, directory);
        }
    }
}

fn push_arrays(out: &mut Transcript, arrays: &[CatalogArray], rows: &[List<Directory>]) {
    for (array, row) in arrays.iter().zip(rows) {
        push_array(out, array, row);
    }
}

fn push_found(out: &mut Transcript, found: &Found) {
    push_numbers(out, "catalogue in pages", &found.chain);
    for pages in found.logged.as_slice() {
        push_numbers(out, "record in pages", pages);
    }
    push_arrays(
        out,
        found.catalog.arrays.as_slice(),
        found.directories.as_slice(),
    );
}

fn push_cause(out: &mut Transcript, cause: OpenCause) {
    match format!(in out.alloc(); "{cause}\n") {
        Ok(line) => {
            push_word(out, line.as_str());
            drop(line);
        }
        Err(_) => out.note_short(),
    }
}

fn push_file<D: Disk>(out: &mut Transcript, file: &mut PageFile<D>)
    requires { length file.old.slots.records ≤ 64 }
{
    match read_found(out.alloc(), file) {
        Ok(found) => {
            push_found(out, &found);
            drop(found);
        }
        Err(cause) => push_cause(out, cause),
    }
}

fn push_disk<D: Disk + Drop>(out: &mut Transcript, disk: D) {
    match open(disk) {
        Ok(mut file) => {
            push_file(out, &mut file);
            drop(file);
        }
        Err((cause, disk)) => {
            drop(disk);
            push_cause(out, cause);
        }
    }
}

/// A disk with a file as some words change it.
pub(crate) fn changed_disk(alloc: Global, file: &Bytes, changes: &str) -> Result<MemDisk, Memory> {
    disk_of(alloc, changed(file, changes, true)?, None)
}

/// Adds what a file opens as where it is changed.
pub(crate) fn push_opened(out: &mut Transcript, file: &Bytes, changes: &str) {
    match changed_disk(out.alloc(), file, changes) {
        Ok(disk) => push_disk(out, disk),
        Err(Memory) => out.note_short(),
    }
}
