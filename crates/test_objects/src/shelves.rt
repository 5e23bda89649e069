//! Shelves.

use crate::answers::{answer_of, push_next, read_of, write_of};
use crate::streams::{push_faults, push_held};
use crate::words::{front_of, push_numbers};
use afl_outside::{Disk, Failed, MemFile, MemShelf, MemSink, Shelf, Source};
use cell_values::{List, Memory};
use test_kit::{Transcript, push_word, push_words};

/// Gives a file a name, a content, and the number of the call that is to fail.
fn fill(file: &mut MemFile, name: &str, content: &str, fail: u64) -> Result<(), Memory> {
    let named = file.name.extend(name.as_bytes());
    let filled = file.content.extend(content.as_bytes());
    named.and(filled).and(file.fails.push(fail))
}

/// Adds a copy of such a file.
fn push_file(
    files: &mut List<MemFile>,
    name: &str,
    content: &str,
    fail: u64,
) -> Result<(), Memory> {
    let alloc = files.allocator();
    let mut file = MemFile {
        name: List::new(alloc),
        content: List::new(alloc),
        fails: List::new(alloc),
    };
    let filled = fill(&mut file, name, content, fail);
    let copy = file.copy();
    drop(file);
    filled.and(files.push(copy?))
}

fn push_reads<S: Source>(out: &mut Transcript, source: &mut S, counts: &str) {
    push_word(out, "opened");
    for count in counts.split_whitespace() {
        push_next(out, read_of(source, count));
    }
    push_word(out, "\n");
}

fn push_writes(out: &mut Transcript, sink: &mut MemSink, pieces: &str) {
    push_word(out, "opened");
    for piece in pieces.split_whitespace() {
        push_next(out, write_of(sink, piece));
    }
    push_word(out, ", ");
    push_held(out, sink.bytes());
}

fn push_answers<D: Disk>(out: &mut Transcript, disk: &mut D, calls: &str) {
    push_word(out, "opened");
    for call in calls.split_whitespace() {
        push_next(out, answer_of(disk, call));
    }
    push_word(out, "\n");
}

fn push_script(out: &mut Transcript, shelf: &mut MemShelf, name: &str, counts: &str) {
    match shelf.script(name) {
        Ok(mut source) => {
            push_reads(out, &mut source, counts);
            drop(source);
        }
        Err(Failed) => push_word(out, "failed\n"),
    }
}

fn push_reply(out: &mut Transcript, shelf: &mut MemShelf, name: &str, pieces: &str) {
    match shelf.reply(name) {
        Ok(mut sink) => {
            push_writes(out, &mut sink, pieces);
            drop(sink);
        }
        Err(Failed) => push_word(out, "failed\n"),
    }
}

fn push_device(out: &mut Transcript, shelf: &mut MemShelf, name: &str, calls: &str) {
    match shelf.device(name) {
        Ok(mut device) => {
            push_answers(out, &mut device, calls);
            drop(device);
        }
        Err(Failed) => push_word(out, "failed\n"),
    }
}

/// Opens a file as a call says, and adds what it answers: to reads of these lengths, to pieces that are written, or to calls of
/// a disk.
fn push_opened(out: &mut Transcript, shelf: &mut MemShelf, call: &str) {
    push_words(out, &[call.trim(), ": "]);
    let (word, operands) = front_of(call);
    let (name, operands) = front_of(operands);
    match word {
        "script" => push_script(out, shelf, name, operands),
        "reply" => push_reply(out, shelf, name, operands),
        _ => push_device(out, shelf, name, operands),
    }
}

/// Adds what the files that calls open answer.
fn push_lines(out: &mut Transcript, shelf: &mut MemShelf, calls: &str) {
    for call in calls.split_terminator('|') {
        push_opened(out, shelf, call);
    }
    push_faults(out, shelf.faults(), shelf.wants());
}

/// Adds the files and replies of a shelf, and the numbers of its calls that are to fail.
fn push_files(
    files: &mut List<MemFile>,
    replies: &mut List<MemFile>,
    fails: &mut List<u64>,
    words: &str,
) -> Result<(), Memory> {
    let page = push_file(files, "db", "page", 1);
    let script = push_file(files, "s", "a;", 0);
    let reply = push_file(replies, "s.out", "old:", 1);
    let numbers = push_numbers(fails, words);
    page.and(script).and(reply).and(numbers)
}

/// Adds what a shelf answers to calls: with the file `db` of the bytes `page`, whose call 1 fails, `s` with `a;`, whose call 0
/// fails, and the reply `s.out` with `old:`, whose call 1 fails.
pub(crate) fn push_shelf(out: &mut Transcript, fails: &str, calls: &str) {
    let alloc = out.alloc();
    let mut files = List::new(alloc);
    let mut replies = List::new(alloc);
    let mut numbers = List::new(alloc);
    let filled = push_files(&mut files, &mut replies, &mut numbers, fails);
    out.note(filled.is_ok());
    let mut shelf = MemShelf::new(files, replies, numbers);
    push_lines(out, &mut shelf, calls);
    drop(shelf);
}
