//! What streams and disks answer to calls.

use crate::words::{front_of, number_in};
use afl_outside::{Disk, Failed, Sink, Source};
use test_kit::{Transcript, push_count, push_text, push_word, push_words};

/// What an object answers to a call.
#[derive(Clone, Copy)]
pub(crate) enum Answer {
    Failed,
    Done,
    /// So many bytes are taken.
    Taken(usize),
    /// There are so many bytes.
    Length(u64),
    /// A piece, of which so many bytes are given.
    Given([u8; 8], usize),
    /// A piece, so many bytes of which were asked, and how many are given.
    Read([u8; 8], usize, usize),
}

fn done_or_failed(done: Result<(), Failed>) -> Answer {
    if done.is_ok() {
        Answer::Done
    } else {
        Answer::Failed
    }
}

/// What a source answers to a read of so many bytes, eight at most.
pub(crate) fn read_of<S: Source>(source: &mut S, count: &str) -> Answer {
    let mut piece = [0u8; 8];
    let count = (number_in(count) as usize).min(8);
    match source.read(&mut piece[..count]) {
        Ok(given) => Answer::Given(piece, given),
        Err(Failed) => Answer::Failed,
    }
}

/// What a sink answers to a piece.
pub(crate) fn write_of<S: Sink>(sink: &mut S, bytes: &str) -> Answer {
    match sink.write(bytes.as_bytes()) {
        Ok(taken) => Answer::Taken(taken),
        Err(Failed) => Answer::Failed,
    }
}

/// What a disk answers to a read of so many bytes, eight at most.
fn read_at<D: Disk>(disk: &mut D, at: u64, count: u64) -> Answer {
    let mut piece = [0u8; 8];
    let count = (count as usize).min(8);
    match disk.read_at(at, &mut piece[..count]) {
        Ok(given) => Answer::Read(piece, count, given),
        Err(Failed) => Answer::Failed,
    }
}

/// What a disk answers to a call.
pub(crate) fn answer_of<D: Disk>(disk: &mut D, call: &str) -> Answer {
    let (word, operands) = front_of(call);
    let (at, operand) = front_of(operands);
    match word {
        "sync" => done_or_failed(disk.sync()),
        "write" => done_or_failed(disk.write_at(number_in(at), operand.as_bytes())),
        "read" => read_at(disk, number_in(at), number_in(operand)),
        _ => match disk.len() {
            Ok(length) => Answer::Length(length),
            Err(Failed) => Answer::Failed,
        },
    }
}

/// Adds an answer.
pub(crate) fn push_answer(out: &mut Transcript, answer: Answer) {
    match answer {
        Answer::Failed => push_word(out, "failed"),
        Answer::Done => push_word(out, "done"),
        Answer::Taken(taken) => {
            push_count(out, taken as u64);
            push_word(out, " taken");
        }
        Answer::Length(length) => push_count(out, length),
        Answer::Given(piece, given) => push_text(out, &piece[..given.min(8)]),
        Answer::Read(piece, count, given) => {
            push_count(out, given as u64);
            push_word(out, " of ");
            push_text(out, &piece[..count.min(8)]);
        }
    }
}

/// Adds a line with a call and its answer.
pub(crate) fn push_answered(out: &mut Transcript, call: &str, answer: Answer) {
    push_words(out, &[call.trim(), ": "]);
    push_answer(out, answer);
    push_word(out, "\n");
}

/// Adds one more answer of a line.
pub(crate) fn push_next(out: &mut Transcript, answer: Answer) {
    push_word(out, ", ");
    push_answer(out, answer);
}
