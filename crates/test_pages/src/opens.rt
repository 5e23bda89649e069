//! What a file opens as.

use crate::files::push_cause;
use afl_outside::{Disk, MemDisk};
use cell_values::{Bytes, List, Memory};
use page_chain::{OpenCause, Slot};
use page_file::PageFile;
use std::alloc::Global;
use test_kit::{Transcript, disk_of, open, push_count, push_word, push_words};

fn push_target(out: &mut Transcript, slot: Slot) {
    match slot {
        Slot::A => push_word(out, ", target A"),
        Slot::B => push_word(out, ", target B"),
        Slot::Log(entry) => {
            push_word(out, ", target entry ");
            push_count(out, u64::from(entry));
        }
    }
}

/// Adds how many bytes a chain has, or why it was not read.
fn push_chain(out: &mut Transcript, name: &str, answer: Result<(Bytes, List<u32>), OpenCause>) {
    push_words(out, &[", ", name]);
    match answer {
        Ok((bytes, pages)) => {
            drop(pages);
            push_word(out, " of ");
            push_count(out, bytes.len() as u64);
            drop(bytes);
            push_word(out, " bytes");
        }
        Err(cause) => {
            push_word(out, ": ");
            push_cause(out, cause);
        }
    }
}

fn push_file<D: Disk>(out: &mut Transcript, file: &mut PageFile<D>) {
    let alloc = out.alloc();
    let root = file.root();
    push_word(out, "sequence ");
    push_count(out, root.sequence);
    push_word(out, ", log page ");
    push_count(out, u64::from(root.log));
    push_target(out, file.target());
    push_chain(out, "catalogue", file.read_chain(alloc, root));
    if file.records().len() != 0 {
        push_chain(out, "record", file.read_record(alloc, 0, &[root.log]));
    }
}

fn push_disk<D: Disk + Drop>(out: &mut Transcript, disk: D) {
    match open(disk) {
        Ok(mut file) => {
            push_file(out, &mut file);
            drop(file);
        }
        Err((cause, disk)) => {
            drop(disk);
            push_cause(out, cause);
        }
    }
}

fn disk_with(alloc: Global, file: Result<Bytes, Memory>) -> Result<MemDisk, Memory> {
    disk_of(alloc, file?, None)
}

/// Opens a file, and adds its current root, its target, its catalogue and the first record of its log.
pub(crate) fn push_open(out: &mut Transcript, title: &str, file: Result<Bytes, Memory>) {
    push_words(out, &[title, ": "]);
    match disk_with(out.alloc(), file) {
        Ok(disk) => push_disk(out, disk),
        Err(Memory) => out.note_short(),
    }
    push_word(out, "\n");
}
