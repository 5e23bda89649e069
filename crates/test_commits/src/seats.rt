//! Two sessions over one store that is shared, each on a thread of its own.
//!
//! `threads 2000 20000 1000` makes a database of at most so many pages, with arrays A and B, opens it for a history of so many entries, and
//! shares it. Two sessions then make so many commits each, the one of A and the other of B, beside a thread that reaps.

use std::sync::Wait;
use std::thread::Threads;
use test_disks::{count_of, limits_of};
use test_kit::{Transcript, begin_answer};
use test_threads::push_threads;

/// Adds what comes of a line.
fn push_line<R: Threads + Wait + Sync>(rt: &R, out: &mut Transcript, line: &str) {
    let numbers = line.strip_prefix("threads ").unwrap_or("");
    let (limits, count) = numbers.rsplit_once(' ').unwrap_or((numbers, ""));
    push_threads(rt, out, limits_of(limits), count_of(count));
}

/// Adds each line, and what comes of it.
pub(crate) fn push_seats<R: Threads + Wait + Sync>(rt: &R, out: &mut Transcript, text: &str) {
    for line in text.lines() {
        if begin_answer(out, line) {
            push_line(rt, out, line);
        }
    }
}
