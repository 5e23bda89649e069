//! Sessions side by side over one database in memory, each on a thread of its own, held at points of theirs so that their steps come in a
//! given order.
//!
//! A line has six parts with ` | ` between them: the options of `run`; the order; a script that is run before; the scripts of sessions 0 and 1;
//! and a script that is run after them. Each of the three runs reopens the file that the one before has left.
//!
//! The order is a list of stops, as `0p2`: session 0 comes to its statement 2, before its pin (`s`), behind it (`p`), or with its result
//! computed (`c`); or, as `0w2`, to piece 2 of the work on a statement. A session or a worker that comes to a stop which is named goes on
//! once all stops before it in the list are behind their sessions. A stop that is named twice is reached at the first place, and left at
//! the second. Where a session is held too long all stops are let go; it is told where the order wasn't kept.
//!
//! At `0y3` session 0 stays before its statement 3 for two seconds, while other threads run. It is told whether pages were made free
//! meanwhile: whether a reap stands before the pin of that statement.

use crate::capped::CappedShelf;
use crate::files::shelf_of;
use crate::order::{Stop, stop_of};
use crate::runs::{file_behind, file_left, new_shelf, report_of, report_over};
use crate::told::{end_words, push_bytes, push_notice};
use afl_run::{Report, let_go_report};
use cell_values::{Bytes, Memory};
use event_core::Entry;
use std::alloc::Global;
use std::sync::Wait;
use std::thread::Threads;
use std::time::Clock;
use test_kit::{Transcript, push_numbered, push_word};

/// The file of a new database over which this script was run.
fn file_before<R: AllocGlobal + Threads + Wait + Clock + Sync>(
    rt: &R,
    script: &str,
) -> Result<Bytes, Memory> {
    file_behind(rt, "run db 0", new_shelf(rt, "0", script))
}

/// Adds what a session has written, and how it ended.
fn push_session(out: &mut Transcript, session: u64, end: &str, written: &[u8]) {
    push_numbered(out, "session ", session, ", ");
    push_word(out, end);
    push_bytes(out, written);
}

/// Adds what each session of a run has written, and how it ended.
fn push_told(out: &mut Transcript, report: &Report<CappedShelf>) {
    let mut number = 0u64;
    for session in report.sessions.as_slice() {
        push_session(out, number, end_words(session.end).1, session.sink.bytes());
        number = number.saturating_add(1);
    }
}

/// Whether a reap stands in the history before this session's pin of the statement of this number.
fn is_reaped(history: &[Entry], stop: Stop) -> bool {
    let mut pins = 0u64;
    for entry in history {
        match entry {
            Entry::Reap => return true,
            Entry::Pin { session } if *session == stop.session && pins == stop.number =>
                return false,
            Entry::Pin { session } if *session == stop.session => pins = pins.saturating_add(1),
            _ => {}
        }
    }
    false
}

/// Adds whether a reap came while a session stayed at a stop of the order.
fn push_reaps(out: &mut Transcript, report: &Report<CappedShelf>, order: &str) {
    for stop in order.split_whitespace().map(stop_of) {
        if stop.is_stay() {
            let before = if is_reaped(report.history.as_slice(), stop) {
                "a reap before statement "
            } else {
                "no reap before statement "
            };
            push_numbered(out, before, stop.number, " of session ");
            push_numbered(out, "", u64::from(stop.session), "\n");
        }
    }
}

/// Adds what a run has written, how it ended, and where it didn't keep its order.
fn push_report(out: &mut Transcript, report: &Report<CappedShelf>, is_kept: bool) {
    push_told(out, report);
    push_numbered(out, "status ", u64::from(report.status), ", ");
    push_numbered(out, "", report.history.len() as u64, " entries, ");
    push_numbered(out, "", report.free_pages, " pages free\n");
    push_notice(out, report);
    if !is_kept {
        push_word(out, "not in this order\n");
    }
}

/// What comes of a script over a file.
fn report_after<R: AllocGlobal + Threads + Wait + Clock + Sync>(
    rt: &R,
    file: Result<Bytes, Memory>,
    script: &str,
) -> Result<Report<CappedShelf>, Memory> {
    report_over(rt, "run db 0", shelf_of(file?, &["0"], &[script]))
}

/// Adds what the first session of a run has written.
fn push_first(out: &mut Transcript, report: &Report<CappedShelf>) {
    if let Some(session) = report.sessions.get(0) {
        push_bytes(out, session.sink.bytes());
    }
}

/// Runs a script over a file that was made, and adds what it writes.
fn push_after<R: AllocGlobal + Threads + Wait + Clock + Sync>(
    rt: &R,
    out: &mut Transcript,
    file: Result<Bytes, Memory>,
    script: &str,
) {
    push_word(out, "after:\n");
    match report_after(rt, file, script) {
        Ok(report) => {
            push_first(out, &report);
            let_go_report(report);
        }
        Err(Memory) => out.note_short(),
    }
}

/// The files of two scripts over the database that another script leaves.
fn files_beside<R: AllocGlobal + Threads + Wait + Clock + Sync>(
    rt: &R,
    before: &str,
    scripts: &[&str],
) -> Result<CappedShelf, Memory> {
    shelf_of(file_before(rt, before)?, &["0", "1"], scripts)
}

/// What comes of two scripts with these options, side by side in this order over files that were made, and whether it was kept.
fn report_beside<R: AllocGlobal + Threads + Wait + Clock + Sync>(
    rt: &R,
    options: &str,
    order: &str,
    files: Result<CappedShelf, Memory>,
) -> Result<(Report<CappedShelf>, bool), Memory> {
    let shelf = files?;
    match format!(in rt.alloc(); "run db {options} 0 1") {
        Ok(line) => {
            let made = report_of(rt, line.as_str(), shelf, order);
            drop(line);
            made
        }
        Err(_) => {
            drop(shelf);
            Err(Memory)
        }
    }
}

/// Adds what came of two scripts side by side, and what another writes over the file that they leave.
fn push_beside<R: AllocGlobal + Threads + Wait + Clock + Sync>(
    rt: &R,
    out: &mut Transcript,
    made: Result<(Report<CappedShelf>, bool), Memory>,
    order: &str,
    after: &str,
) {
    match made {
        Ok((report, is_kept)) => {
            push_report(out, &report, is_kept);
            push_reaps(out, &report, order);
            let left = file_left(rt.alloc(), &report);
            let_go_report(report);
            push_after(rt, out, left, after);
        }
        Err(Memory) => out.note_short(),
    }
}

/// Runs a case: its scripts side by side, in its order, and then the last one.
fn push_case<R: AllocGlobal + Threads + Wait + Clock + Sync>(
    rt: &R,
    out: &mut Transcript,
    parts: &[&str],
) {
    let [options, order, before, first, second, after] = parts else {
        push_word(out, "unknown\n");
        return;
    };
    let files = files_beside(rt, before, &[*first, *second]);
    let made = report_beside(rt, options, order, files);
    push_beside(rt, out, made, order, after);
}

fn parts_of<'a>(alloc: Global, line: &'a str) -> Result<Vec<&'a str>, Memory> {
    Ok(line.split('|').collect(alloc)?)
}

/// Adds what the runs of a case come to.
pub(crate) fn push_sessions<R: AllocGlobal + Threads + Wait + Clock + Sync>(
    rt: &R,
    out: &mut Transcript,
    line: &str,
) {
    match parts_of(rt.alloc(), line) {
        Ok(parts) => {
            push_case(rt, out, parts.as_slice());
            drop(parts);
        }
        Err(Memory) => out.note_short(),
    }
}
