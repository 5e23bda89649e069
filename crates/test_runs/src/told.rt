//! What is told of a run.

use crate::capped::CappedShelf;
use afl_outside::MemDisk;
use afl_run::{Report, SessionEnd, notice_line};
use cell_values::Memory;
use std::str::from_utf8;
use test_kit::{Transcript, disk_bytes, push_numbered, push_word};

/// Adds bytes that are a text.
pub(crate) fn push_bytes(out: &mut Transcript, bytes: &[u8]) {
    push_word(out, from_utf8(bytes).unwrap_or("no text"));
}

/// Adds the line with which a run ends.
pub(crate) fn push_notice(out: &mut Transcript, report: &Report<CappedShelf>) {
    match notice_line(out.alloc(), &report.notice) {
        Ok(line) => {
            push_bytes(out, line.as_slice());
            drop(line);
        }
        Err(Memory) => out.note_short(),
    }
}

/// What it was that ended a session: at the head of a text, and in it.
pub(crate) fn end_words(end: SessionEnd) -> (&'static str, &'static str) {
    match end {
        SessionEnd::Whole => ("Whole, ", "whole:\n"),
        SessionEnd::Source => ("Source, ", "source:\n"),
        SessionEnd::Sink => ("Sink, ", "sink:\n"),
        SessionEnd::Memory => ("Memory, ", "memory:\n"),
    }
}

/// Adds what a session has written, and how it ended.
fn push_session(out: &mut Transcript, text: &[u8], end: SessionEnd) {
    push_bytes(out, text);
    push_word(out, end_words(end).0);
}

/// Adds what the sessions have written, and how they ended.
fn push_sessions(out: &mut Transcript, report: &Report<CappedShelf>) {
    for session in report.sessions.as_slice() {
        push_session(out, session.sink.bytes(), session.end);
    }
    if let Some(session) = &report.generated {
        push_session(out, session.sink.bytes(), session.end);
    }
}

/// Adds how many bytes a device has.
fn push_length(out: &mut Transcript, disk: &MemDisk) {
    match disk_bytes(disk) {
        Ok(bytes) => {
            push_numbered(out, "device of ", bytes.len() as u64, " bytes, ");
            drop(bytes);
        }
        Err(Memory) => out.note_short(),
    }
}

/// Adds what the sessions have written, how they ended, how many bytes the device has that was opened, if that is wanted, and the status
/// and line of the run.
pub(crate) fn push_report(out: &mut Transcript, report: &Report<CappedShelf>, tells_device: bool) {
    push_sessions(out, report);
    match &report.disk {
        Some(disk) if tells_device => push_length(out, disk),
        _ => {}
    }
    push_numbered(out, "status ", u64::from(report.status), "\n");
    push_notice(out, report);
}
