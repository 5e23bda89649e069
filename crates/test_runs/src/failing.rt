//! Scripts over a device some of whose calls fail, or whose bytes were changed.
//!
//! A line has four parts with ` | ` between them: words for what is wrong with the device; a script that is run before, over a new
//! database whose calls all work; the script that is run over the file that it leaves; and one that is run over what the device then holds.
//! A word that is a number, as `12`, is that of a call that fails, from 0; `16400:30` puts bytes at a place of the file before, and `..4096`
//! cuts it. By `stops` it is told what the last script writes over the images that a stop may leave.

use crate::capped::CappedShelf;
use crate::files::{failing_shelf, shelf_of};
use crate::runs::{file_behind, file_left, new_shelf, report_over};
use crate::stops::push_stops;
use crate::told::push_report;
use afl_outside::{DeviceCall, MemDisk};
use afl_run::{Report, let_go_report};
use cell_values::{Bytes, List, Memory};
use std::alloc::Global;
use std::sync::Wait;
use std::thread::Threads;
use std::time::Clock;
use test_kit::{Transcript, bytes_in, changed, cut, push_numbered, push_word};

/// The file with the bytes of these digits at a place.
fn with_digits(file: &Bytes, at: u64, digits: &str) -> Result<Bytes, Memory> {
    let put = bytes_in(file.allocator(), digits)?;
    match changed(file.allocator(), file, at, put.as_slice()) {
        Ok(made) => Ok(made),
        Err(_) => Err(Memory),
    }
}

/// The file with what a word says of its bytes.
fn with_word(file: &Bytes, word: &str) -> Result<Bytes, Memory> {
    if let Some(length) = word.strip_prefix("..") {
        return cut(file.allocator(), file, length.parse::<usize>().unwrap_or(0));
    }
    match word.split_once(':') {
        Some((at, digits)) => with_digits(file, at.parse::<u64>().unwrap_or(0), digits),
        None => file.copy(),
    }
}

/// The file that a script is run over: what the one before leaves, with what the words say of its bytes.
fn file_of<R: AllocGlobal + Threads + Wait + Clock + Sync>(
    rt: &R,
    words: &str,
    before: &str,
) -> Result<Bytes, Memory> {
    let mut file = file_behind(rt, "run db -", new_shelf(rt, "-", before))?;
    for word in words.split_whitespace() {
        file = with_word(&file, word)?;
    }
    Ok(file)
}

/// The numbers of the calls that fail.
fn fails_of(alloc: Global, words: &str) -> Result<List<u64>, Memory> {
    let mut fails = List::new(alloc);
    for word in words.split_whitespace() {
        if let Ok(number) = word.parse::<u64>() {
            fails.push(number)?;
        }
    }
    Ok(fails)
}

/// A device of a case and its script.
fn shelf_by<R: AllocGlobal + Threads + Wait + Clock + Sync>(
    rt: &R,
    words: &str,
    before: &str,
    script: &str,
) -> Result<CappedShelf, Memory> {
    let file = file_of(rt, words, before)?;
    match fails_of(rt.alloc(), words) {
        Ok(fails) => {
            let shelf = failing_shelf(file, fails.as_slice(), &["-"], &[script]);
            drop(fails);
            shelf
        }
        Err(Memory) => {
            drop(file);
            Err(Memory)
        }
    }
}

/// Whether there is a write among the calls of a device.
fn is_written(disk: &MemDisk) -> bool {
    for call in disk.calls() {
        match call {
            DeviceCall::Write { .. } => return true,
            _ => {}
        }
    }
    false
}

/// Adds how many calls a device has had.
fn push_calls(out: &mut Transcript, disk: &MemDisk) {
    push_numbered(out, "", disk.calls().len() as u64, " calls");
    push_word(
        out,
        if is_written(disk) {
            "\n"
        } else {
            ", no write\n"
        },
    );
}

/// Adds what a run comes to, and how many calls its device has had.
fn push_failing_report(out: &mut Transcript, report: &Report<CappedShelf>) {
    if let Some(disk) = &report.disk {
        push_calls(out, disk);
    }
    push_report(out, report, false);
}

/// Adds what a script comes to over the file that a run has left.
fn push_reopened<R: AllocGlobal + Threads + Wait + Clock + Sync>(
    rt: &R,
    out: &mut Transcript,
    left: Result<Bytes, Memory>,
    script: &str,
) -> Result<(), Memory> {
    push_word(out, "after: ");
    let report = report_over(rt, "run db -", shelf_of(left?, &["-"], &[script]))?;
    push_failing_report(out, &report);
    let_go_report(report);
    Ok(())
}

/// Whether it is told what a stop leaves.
fn is_stopped(words: &str) -> bool {
    words.split_whitespace().any(|word| word == "stops")
}

/// Adds what comes of a case.
fn push_case<R: AllocGlobal + Threads + Wait + Clock + Sync>(
    rt: &R,
    out: &mut Transcript,
    parts: &[&str],
) -> Result<(), Memory> {
    let [words, before, script, after] = parts else {
        push_word(out, "unknown\n");
        return Ok(());
    };
    let report = report_over(rt, "run db -", shelf_by(rt, words, before, script))?;
    push_failing_report(out, &report);
    let left = file_left(rt.alloc(), &report);
    match &report.disk {
        Some(disk) if is_stopped(words) => push_stops(rt, out, disk, after),
        _ => {}
    }
    let_go_report(report);
    push_reopened(rt, out, left, after)
}

fn push_parts<R: AllocGlobal + Threads + Wait + Clock + Sync>(
    rt: &R,
    out: &mut Transcript,
    line: &str,
) -> Result<(), Memory> {
    let parts: Vec<&str> = line.split('|').collect(rt.alloc())?;
    push_case(rt, out, parts.as_slice())
}

/// Adds what comes of a line.
pub(crate) fn push_failing<R: AllocGlobal + Threads + Wait + Clock + Sync>(
    rt: &R,
    out: &mut Transcript,
    line: &str,
) {
    let told = push_parts(rt, out, line);
    out.note(told.is_ok());
}
