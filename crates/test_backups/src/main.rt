//! Prints what comes of streams that are restored as backups.
//!
//! A line of standard input has a number of pages, the bytes of a disk and those of a stream, as hexadecimal digits behind a space each. One
//! that begins with `##` is a title.
#![tactic(auto)]

use afl_outside::{MemDisk, MemSource};
use backup_restoring::{RestoreFault, restore};
use cell_values::{Bytes, List, Memory};
use std::io;
use test_kit::{
    Transcript, begin_answer, bytes_in, disk_bytes, disk_of, input, open, push_count, push_word,
};

/// Adds a number between two texts.
fn push_counted(out: &mut Transcript, word: &str, number: u64, behind: &str) {
    push_word(out, word);
    push_count(out, number);
    push_word(out, behind);
}

fn push_fault(out: &mut Transcript, fault: RestoreFault) {
    match fault {
        RestoreFault::Source => push_word(out, "source fault\n"),
        RestoreFault::Disk => push_word(out, "disk fault\n"),
        RestoreFault::NotEmpty { length } => push_counted(out, "not empty: ", length, " bytes\n"),
        RestoreFault::NotBackup { at } => push_counted(out, "not a backup: byte ", at, "\n"),
        RestoreFault::Full { needed, free } => {
            push_counted(out, "full: needs ", u64::from(needed), " pages, ");
            push_counted(out, "", u64::from(free), " free\n");
        }
        RestoreFault::NotDatabase { page } => {
            push_counted(out, "not a database: page ", u64::from(page), "\n");
        }
        RestoreFault::Memory => push_word(out, "no memory\n"),
    }
}

/// Adds the sequence with which a disk opens.
fn push_opened(out: &mut Transcript, disk: MemDisk) {
    match open(disk) {
        Ok(file) => {
            push_counted(out, ", sequence ", file.root().sequence, "\n");
            drop(file);
        }
        Err((_cause, disk)) => {
            push_word(out, ", which doesn't open\n");
            drop(disk);
        }
    }
}

/// Adds how many bytes a disk has, and with which sequence it opens.
fn push_disk(out: &mut Transcript, disk: MemDisk) {
    match disk_bytes(&disk) {
        Ok(bytes) => {
            push_counted(out, "restored: ", bytes.len() as u64, " bytes");
            drop(bytes);
        }
        Err(Memory) => out.note_short(),
    }
    push_opened(out, disk);
}

/// Adds what comes of a stream that is restored to a disk of so many pages.
fn push_restored(out: &mut Transcript, pages: u32, disk: MemDisk, stream: Bytes) {
    let alloc = out.alloc();
    let mut source = MemSource::new(stream, List::new(alloc));
    let (answer, disk) = restore(alloc, &mut source, disk, pages);
    drop(source);
    match answer {
        Ok(()) => push_disk(out, disk),
        Err(fault) => {
            push_fault(out, fault);
            drop(disk);
        }
    }
}

/// The disk that a word stands for.
fn disk_in(out: &Transcript, word: &str) -> Result<MemDisk, Memory> {
    let bytes = bytes_in(out.alloc(), word)?;
    disk_of(out.alloc(), bytes, None)
}

fn push_line(out: &mut Transcript, line: &str) {
    let mut words = line.split(' ');
    let pages = words.next().unwrap_or("").parse::<u32>().unwrap_or(0);
    let disk = disk_in(out, words.next().unwrap_or(""));
    let stream = bytes_in(out.alloc(), words.next().unwrap_or(""));
    match disk {
        Ok(disk) => match stream {
            Ok(stream) => push_restored(out, pages, disk, stream),
            Err(Memory) => {
                drop(disk);
                out.note_short();
            }
        },
        Err(Memory) => {
            drop(stream);
            out.note_short();
        }
    }
}

fn main(rt: HostRuntime) -> io::Result<()> {
    let text = input(&rt)?;
    let mut out = Transcript::new(rt.alloc());
    for line in text.lines() {
        if begin_answer(&mut out, line) {
            push_line(&mut out, line);
        }
    }
    drop(text);
    match out.finish() {
        Ok(told) => {
            let printed = print!(rt; "{told}");
            drop(told);
            printed
        }
        Err(Memory) => println!(rt; "no memory"),
    }
}
