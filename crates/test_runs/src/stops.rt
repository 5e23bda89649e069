//! What a script writes over the images that a stop of a device may leave.

use crate::files::shelf_of;
use crate::runs::report_over;
use crate::told::push_report;
use afl_outside::MemDisk;
use afl_run::let_go_report;
use cell_values::{Bytes, List, Memory};
use std::alloc::Global;
use std::sync::Wait;
use std::thread::Threads;
use std::time::Clock;
use test_kit::{
    Transcript, kept_by, push_count, push_counts, push_numbered, push_range, push_word, unsynced,
};

/// What a script writes over some images, and whether one of them is among those that are looked at.
#[derive(Drop)]
struct Outcome {
    text: String,
    is_seen: bool,
}

/// Notes that a script writes a text over one more image.
fn note_outcome(outcomes: &mut Vec<Outcome>, text: String) -> Result<(), Memory> {
    for outcome in outcomes.iter_mut() {
        if outcome.text.as_str() == text.as_str() {
            outcome.is_seen = true;
            return Ok(());
        }
    }
    outcomes.push(Outcome {
        text,
        is_seen: true,
    })?;
    Ok(())
}

/// What a script writes over a file, and how its run ends.
fn text_over<R: AllocGlobal + Threads + Wait + Clock + Sync>(
    rt: &R,
    file: Bytes,
    script: &str,
) -> Result<String, Memory> {
    let report = report_over(rt, "run db -", shelf_of(file, &["-"], &[script]))?;
    let mut out = Transcript::new(rt.alloc());
    push_report(&mut out, &report, false);
    let_go_report(report);
    out.finish()
}

/// Notes what a script writes over the images that a stop behind so many calls may leave: with every write kept, with none, and with each
/// one alone left out, where 0, 1 or 255 stands.
fn note_images<R: AllocGlobal + Threads + Wait + Clock + Sync>(
    rt: &R,
    outcomes: &mut Vec<Outcome>,
    disk: &MemDisk,
    calls: usize,
    script: &str,
) -> Result<(), Memory> {
    let made = disk.calls();
    let calls = calls.min(made.len());
    let writes = unsynced(&made[..calls]);
    for fill in [0u8, 1, 255] {
        for pattern in 0..writes.saturating_add(2) {
            let kept = kept_by(rt.alloc(), pattern, writes)?;
            let image = disk.image(calls as u64, kept.as_slice(), fill)?;
            note_outcome(outcomes, text_over(rt, image, script)?)?;
        }
    }
    Ok(())
}

/// The numbers, from 1, of the outcomes that were seen; none of them counts as seen any more.
fn seen_in(alloc: Global, outcomes: &mut Vec<Outcome>) -> Result<List<u64>, Memory> {
    let mut seen = List::new(alloc);
    let mut number = 0u64;
    for outcome in outcomes.iter_mut() {
        number = number.saturating_add(1);
        if outcome.is_seen {
            seen.push(number)?;
            outcome.is_seen = false;
        }
    }
    Ok(seen)
}

/// The outcomes behind some calls, of this number or of more.
#[derive(Drop)]
struct Span {
    from: u64,
    seen: List<u64>,
}

impl Span {
    /// Adds them, for stops behind up to so many calls.
    fn push(&self, out: &mut Transcript, to: u64) {
        push_word(out, "a stop behind ");
        if self.from == to {
            push_count(out, to);
        } else {
            push_range(out, self.from, to);
        }
        push_word(out, " calls: ");
        push_counts(out, self.seen.as_slice());
        push_word(out, "\n");
    }

    /// Goes on to one more call. Where the outcomes are others, those before are added.
    fn go_on(&mut self, out: &mut Transcript, calls: u64, seen: List<u64>) {
        if calls > 0 && seen.as_slice() != self.seen.as_slice() {
            self.push(out, calls - 1);
            self.from = calls;
        }
        self.seen = seen;
    }
}

/// Adds the outcomes behind each number of calls.
fn push_spans<R: AllocGlobal + Threads + Wait + Clock + Sync>(
    rt: &R,
    out: &mut Transcript,
    outcomes: &mut Vec<Outcome>,
    disk: &MemDisk,
    script: &str,
) -> Result<(), Memory> {
    let mut span = Span {
        from: 0,
        seen: List::new(rt.alloc()),
    };
    let count = disk.calls().len();
    for calls in 0..count.saturating_add(1) {
        note_images(rt, outcomes, disk, calls, script)?;
        span.go_on(out, calls as u64, seen_in(rt.alloc(), outcomes)?);
    }
    span.push(out, count as u64);
    Ok(())
}

/// Adds each outcome.
fn push_outcomes(out: &mut Transcript, outcomes: &[Outcome]) {
    let mut number = 0u64;
    for outcome in outcomes {
        number = number.saturating_add(1);
        push_numbered(out, "outcome ", number, ":\n");
        push_word(out, outcome.text.as_str());
    }
}

/// Adds what a script writes over the images that a stop behind each call of a device may leave.
pub(crate) fn push_stops<R: AllocGlobal + Threads + Wait + Clock + Sync>(
    rt: &R,
    out: &mut Transcript,
    disk: &MemDisk,
    script: &str,
) {
    let mut outcomes = Vec::new(rt.alloc());
    let told = push_spans(rt, out, &mut outcomes, disk, script);
    push_outcomes(out, outcomes.as_slice());
    out.note(told.is_ok());
    drop(outcomes);
}
