//! Calls on objects in memory, and what these hold after them.
//!
//! A line has the object first, with what it holds and the numbers, from 0, of the calls that are to fail; then, each
//! behind a `|`, the calls. A `sure` object has no failing calls, and a `real` one is a stream or a file of the system.

use crate::disks::{push_disk, push_sure_disk};
use crate::real::push_real;
use crate::shelves::push_shelf;
use crate::streams::{push_sink, push_source, push_sure_sink};
use crate::words::{front_of, number_in, push_numbers};
use afl_outside::{MemDisk, MemSink, MemSource, Shelf, SureDisk, SureSink, SureSource, has_risen};
use cell_values::{Bytes, List, Memory};
use test_kit::{Transcript, push_word};

/// What is called.
enum Kind {
    Source,
    Sink,
    Disk,
}

fn kind_of(word: &str) -> Kind {
    match word {
        "source" => Kind::Source,
        "sink" => Kind::Sink,
        _ => Kind::Disk,
    }
}

/// Adds whether a count of failed calls has risen.
fn push_risen(out: &mut Transcript, counts: &str) {
    let (before, now) = front_of(counts);
    let before = number_in(before);
    let now = number_in(now);
    let has_risen = before <= now && has_risen(before, now);
    push_word(out, if has_risen { "risen\n" } else { "not risen\n" });
}

/// Adds what an object that holds these bytes, and never fails, answers to calls.
fn push_sure_holding(out: &mut Transcript, object: &str, content: Bytes, calls: &str) {
    match kind_of(object) {
        Kind::Source => push_source(out, SureSource::new(content), calls),
        Kind::Sink => push_sure_sink(out, SureSink::new(content), calls),
        Kind::Disk => push_sure_disk(out, SureDisk::new(content), calls),
    }
}

/// Adds what an object that holds something, and never fails, answers to calls.
fn push_sure(out: &mut Transcript, object: &str, calls: &str) {
    let (word, content) = front_of(object);
    match Bytes::from_slice(out.alloc(), content.as_bytes()) {
        Ok(content) => push_sure_holding(out, word, content, calls),
        Err(Memory) => out.note_short(),
    }
}

/// Adds what an object that holds these bytes, and fails at the calls of these numbers, answers to calls.
fn push_holding(out: &mut Transcript, object: &str, content: Bytes, fails: &str, calls: &str) {
    let mut numbers = List::new(content.allocator());
    let listed = push_numbers(&mut numbers, fails);
    out.note(listed.is_ok());
    match kind_of(object) {
        Kind::Source => push_source(out, MemSource::new(content, numbers), calls),
        Kind::Sink => push_sink(out, MemSink::new(content, numbers), calls),
        Kind::Disk => push_disk(out, MemDisk::new(content, numbers), calls),
    }
}

/// Adds what an object that holds something, and fails at some calls, answers to calls.
fn push_failing(out: &mut Transcript, object: &str, held: &str, calls: &str) {
    let (content, fails) = front_of(held);
    match Bytes::from_slice(out.alloc(), content.as_bytes()) {
        Ok(content) => push_holding(out, object, content, fails, calls),
        Err(Memory) => out.note_short(),
    }
}

/// What a line asks for.
enum Asked {
    Count,
    Sure,
    Real,
    Shelf,
    Failing,
}

fn asked_by(word: &str) -> Asked {
    match word {
        "count" => Asked::Count,
        "sure" => Asked::Sure,
        "real" => Asked::Real,
        "shelf" => Asked::Shelf,
        _ => Asked::Failing,
    }
}

/// Adds the answer to a line.
pub(crate) fn push_object<S: Shelf>(out: &mut Transcript, shelf: &mut S, line: &str) {
    let (object, calls) = line.split_once('|').unwrap_or((line, ""));
    let (word, held) = front_of(object);
    match asked_by(word) {
        Asked::Count => push_risen(out, held),
        Asked::Sure => push_sure(out, held, calls),
        Asked::Real => push_real(out, shelf, held, calls),
        Asked::Shelf => push_shelf(out, held, calls),
        Asked::Failing => push_failing(out, word, held, calls),
    }
}
