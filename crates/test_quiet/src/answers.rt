//! What a step is answered.

use cell_values::{Bytes, List, Memory, Name};
use page_file::OpenCause;
use result_print::{Refusal, refusal_line};
use std::alloc::AllocError;
use std::str::from_utf8;
use store_state::ReadFault;
use test_kit::{Transcript, push_numbered, push_word};

/// What a step is answered.
pub enum Answer {
    Done,
    /// A version was made.
    Made { name: Name, version: u32 },
    /// Lines, each with its line feed.
    Lines(Bytes),
    /// The numbers of versions.
    Numbers(List<u32>),
    /// A reap came, or none.
    Reaped(bool),
    /// The pin or the commit has this place in the history of a shared store.
    At { place: u64 },
    /// So many commits were made.
    Commits(u64),
    /// The session has a pin, or has none.
    HasPin,
    HasNoPin,
    /// The session tried a commit under its pin.
    HasTried,
    /// The session tried a commit under its pin of a shared store, or read.
    HasUsed,
    /// No array or version has the name.
    Unknown,
    /// The statement changes nothing.
    NoChange,
    /// The change reads stored arrays.
    Reads,
    Refused(Refusal),
    /// What the change is about, or what it reads, was changed since the pin.
    Stale,
    /// So it was, and the turn that was handed out names this version of the array.
    StaleTo { newest: u32 },
    HistoryFull { entries: u32 },
    Full { needed: u32, free: u32 },
    SequenceEnd,
    Unread(ReadFault),
    Unopened(OpenCause),
    Disk,
    Memory,
}

impl Drop for Answer {
    fn drop(self) {
        match self {
            Answer::Done => {}
            Answer::Made {
                name: _,
                version: _,
            } => {}
            Answer::Lines(_) => {}
            Answer::Numbers(_) => {}
            Answer::Reaped(_) => {}
            Answer::At { place: _ } => {}
            Answer::Commits(_) => {}
            Answer::HasPin => {}
            Answer::HasNoPin => {}
            Answer::HasTried => {}
            Answer::HasUsed => {}
            Answer::Unknown => {}
            Answer::NoChange => {}
            Answer::Reads => {}
            Answer::Refused(_) => {}
            Answer::Stale => {}
            Answer::StaleTo { newest: _ } => {}
            Answer::HistoryFull { entries: _ } => {}
            Answer::Full { needed: _, free: _ } => {}
            Answer::SequenceEnd => {}
            Answer::Unread(_) => {}
            Answer::Unopened(_) => {}
            Answer::Disk => {}
            Answer::Memory => {}
        }
    }
}

fn push_numbers(out: &mut Transcript, numbers: &[u32]) {
    for number in numbers {
        push_numbered(out, "", u64::from(*number), " ");
    }
    push_word(out, "\n");
}

fn push_lines(out: &mut Transcript, lines: &Bytes) {
    push_word(out, from_utf8(lines.as_slice()).unwrap_or("no text\n"));
}

fn push_refusal(out: &mut Transcript, refusal: &Refusal) {
    match refusal_line(out.alloc(), refusal) {
        Ok(line) => {
            push_lines(out, &line);
            drop(line);
        }
        Err(Memory) => out.note_short(),
    }
}

fn push_version(out: &mut Transcript, name: &Name, version: u32) {
    push_word(out, "ok ");
    push_word(out, from_utf8(name.as_slice()).unwrap_or("no text"));
    push_numbered(out, "@", u64::from(version), "\n");
}

fn push_full(out: &mut Transcript, needed: u32, free: u32) {
    push_numbered(out, "error: full: needs ", u64::from(needed), " pages, ");
    push_numbered(out, "", u64::from(free), " free\n");
}

fn push_cause(out: &mut Transcript, cause: &OpenCause) {
    match format!(in out.alloc(); "error: {cause}\n") {
        Ok(line) => push_word(out, line.as_str()),
        Err(AllocError) => out.note_short(),
    }
}

impl Answer {
    /// The line of an answer that tells nothing more.
    fn line(&self) -> &'static str {
        match self {
            Answer::Done => "ok\n",
            Answer::Reaped(true) => "reaped\n",
            Answer::Reaped(false) => "nothing to reap\n",
            Answer::HasPin => "error: the session has a pin\n",
            Answer::HasNoPin => "error: the session has no pin\n",
            Answer::HasTried => "error: the session tried a commit\n",
            Answer::HasUsed => "error: the session has used its pin\n",
            Answer::Unknown => "error: unknown\n",
            Answer::NoChange => "error: no change\n",
            Answer::Reads => "error: reads\n",
            Answer::Stale => "error: stale\n",
            Answer::SequenceEnd => "error: no sequence number is left\n",
            Answer::Disk | Answer::Unread(ReadFault::Disk) => "error: disk\n",
            _ => "error: memory\n",
        }
    }

    /// The number that an answer tells, between two texts.
    fn number(&self) -> Option<(&'static str, u64, &'static str)> {
        match self {
            Answer::At { place } => Some(("place ", *place, "\n")),
            Answer::Commits(count) => Some(("", *count, " commits\n")),
            Answer::HistoryFull { entries } => {
                Some(("error: history full, ", u64::from(*entries), " entries\n"))
            }
            Answer::StaleTo { newest } => {
                let before = "error: stale, the newest is version ";
                Some((before, u64::from(*newest), "\n"))
            }
            Answer::Unread(ReadFault::Damaged { page }) => {
                Some(("error: damaged page ", u64::from(*page), "\n"))
            }
            _ => None,
        }
    }

    /// Adds an answer that tells a number, or only its line.
    fn push_plain(&self, out: &mut Transcript) {
        match self.number() {
            Some((before, number, behind)) => push_numbered(out, before, number, behind),
            None => push_word(out, self.line()),
        }
    }

    /// Adds it in words, as lines.
    fn push(&self, out: &mut Transcript) {
        match self {
            Answer::Made { name, version } => push_version(out, name, *version),
            Answer::Lines(lines) => push_lines(out, lines),
            Answer::Numbers(numbers) => push_numbers(out, numbers.as_slice()),
            Answer::Refused(refusal) => push_refusal(out, refusal),
            Answer::Full { needed, free } => push_full(out, *needed, *free),
            Answer::Unopened(cause) => push_cause(out, cause),
            plain => plain.push_plain(out),
        }
    }

    /// Adds it in words, as lines, and lets it go.
    pub fn tell(self, out: &mut Transcript) {
        self.push(out);
        drop(self);
    }
}
