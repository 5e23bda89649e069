//! Files with known bytes, and what they open as.

use crate::files::{changed_file, new_file, old_file};
use crate::opens::push_open;
use afl_outside::{Disk, Failed};
use cell_values::{Bytes, List, Memory};
use std::alloc::Global;
use test_kit::{
    Transcript, commit_base, cut, disk_bytes, disk_of, open, push_count, push_word, push_words,
    truth_word,
};

/// Adds the length of a file, and each byte of it that isn't 0 behind its place.
fn push_bytes(out: &mut Transcript, title: &str, file: &Bytes) {
    push_words(out, &[title, ": "]);
    push_count(out, file.len() as u64);
    push_word(out, " bytes");
    for (place, byte) in file.as_slice().iter().enumerate() {
        if *byte != 0 {
            push_word(out, ", ");
            push_count(out, place as u64);
            push_word(out, " is ");
            push_count(out, u64::from(*byte));
        }
    }
    push_word(out, "\n");
}

/// Opens and reads a file, and hands its disk back. None where that isn't done.
fn read_on<D: Disk + Drop>(alloc: Global, disk: D) -> Option<D> {
    match open(disk) {
        Err(_) => None,
        Ok(mut file) => {
            let root = file.root();
            match file.read_chain(alloc, root) {
                Ok(_) => Some(file.close()),
                Err(_) => None,
            }
        }
    }
}

/// Whether a file that is opened, read and closed has the same bytes as before.
fn is_left_as_it_is(alloc: Global, bytes: &Bytes) -> Result<bool, Memory> {
    match read_on(alloc, disk_of(alloc, bytes.copy()?, None)?) {
        None => Ok(false),
        Some(disk) => {
            let left = disk_bytes(&disk);
            drop(disk);
            let left = left?;
            let is_same = left == *bytes;
            drop(left);
            Ok(is_same)
        }
    }
}

/// Opens a file and commits a base of one byte, and hands its disk back. None where that isn't done.
fn commit_on<D: Disk + Drop>(disk: D) -> Option<D> {
    match open(disk) {
        Err(_) => None,
        Ok(mut file) => match commit_base(&mut file, 2, 3, &[9]) {
            Ok(()) => Some(file.close()),
            Err(Failed) => None,
        },
    }
}

/// The file with a base of one byte, and of no bytes where that isn't committed.
fn with_base(alloc: Global, bytes: &Bytes) -> Result<Bytes, Memory> {
    match commit_on(disk_of(alloc, bytes.copy()?, None)?) {
        None => Ok(List::new(alloc)),
        Some(disk) => {
            let bytes = disk_bytes(&disk);
            drop(disk);
            bytes
        }
    }
}

/// A file of format 1 is opened, and stays as it is. A base that is committed to it is of format 2.
fn push_migration(out: &mut Transcript, old: &Bytes) {
    push_bytes(out, "format 1", old);
    push_open(out, "format 1 opened", old.copy());
    match is_left_as_it_is(out.alloc(), old) {
        Ok(is_same) => push_words(
            out,
            &["its bytes are the same: ", truth_word(is_same), "\n"],
        ),
        Err(Memory) => out.note_short(),
    }
    match with_base(out.alloc(), old) {
        Ok(new) => {
            push_bytes(out, "with a new base", &new);
            push_open(out, "with a new base, opened", Ok(new));
        }
        Err(Memory) => out.note_short(),
    }
}

/// Opens the file with another byte at a place.
fn push_changed(out: &mut Transcript, title: &str, file: &Bytes, at: u64, byte: u8) {
    let changed = changed_file(out.alloc(), file, at, &[byte]);
    push_open(out, title, changed);
}

/// Opens a file that was made, and such files with another front.
fn push_new_file(out: &mut Transcript, file: &Bytes) {
    let alloc = out.alloc();
    push_bytes(out, "a database that was made", file);
    push_open(out, "opened", file.copy());
    push_open(out, "an empty file", cut(alloc, file, 0));
    push_open(out, "page 0 cut", cut(alloc, file, 4095));
    push_changed(out, "another text", file, 7, b'F');
    push_changed(out, "format 3", file, 8, 3);
    push_changed(out, "no slot open", file, 512, 255);
    push_changed(out, "a log page past the end", file, 540, 3);
    push_changed(out, "an open entry of no bytes", file, 8192, 1);
    push_changed(out, "an open entry behind a closed one", file, 8256, 1);
}

/// Opens a file of format 1, and such files that are damaged.
fn push_old_file(out: &mut Transcript, old: &Bytes) {
    let alloc = out.alloc();
    push_migration(out, old);
    push_open(out, "format 1 without page 1", cut(alloc, old, 4096));
    push_changed(
        out,
        "format 1 with a link behind the last page",
        old,
        4096,
        1,
    );
    match changed_file(alloc, old, 1024, &[1]) {
        Ok(both) => {
            push_changed(out, "format 1 with two slots of sequence 1", &both, 1032, 1);
            drop(both);
        }
        Err(Memory) => out.note_short(),
    }
}

/// Adds what files open as, and where they are no database.
pub(crate) fn push_rows(out: &mut Transcript) {
    push_word(out, "### files of few pages\n");
    match new_file(out.alloc()) {
        Ok(file) => {
            push_new_file(out, &file);
            drop(file);
        }
        Err(Memory) => out.note_short(),
    }
    match old_file(out.alloc()) {
        Ok(old) => {
            push_old_file(out, &old);
            drop(old);
        }
        Err(Memory) => out.note_short(),
    }
}
