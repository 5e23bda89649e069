//! What sessions are given, and what they report.

use afl_lexer::Splitter;
use cell_values::List;
use result_print::Refusal;

/// What a session reads and writes, before it begins.
#[derive(Drop)]
pub struct Streams<S, K> {
    pub source: S,
    pub sink: K,
    pub splitter: Splitter,
}

/// What became of a statement.
pub struct Mark {
    /// Its first byte's place in the script.
    pub start: u64,
    /// The place behind its last byte.
    pub end: u64,
    /// How many entries of the history its reply rests on.
    pub place: u64,
    pub refusal: Option<Refusal>,
}

impl Drop for Mark {
    fn drop(self) {
        let Mark {
            start: _,
            end: _,
            place: _,
            refusal: _,
        } = self;
    }
}

/// How a session ended.
#[derive(Clone, Copy)]
pub enum SessionEnd {
    /// The script was read to its end, and each statement answered.
    Whole,
    /// The source failed.
    Source,
    /// The sink failed.
    Sink,
    /// No memory was found.
    Memory,
}

/// A session at its end.
pub struct SessionReport<S, K> {
    pub source: S,
    pub sink: K,
    /// The marks of the statements that were answered, in order.
    pub marks: List<Mark>,
    pub end: SessionEnd,
}

impl<S: Drop, K: Drop> Drop for SessionReport<S, K> {
    fn drop(self) {
        let SessionReport {
            source: _,
            sink: _,
            marks: _,
            end: _,
        } = self;
    }
}
