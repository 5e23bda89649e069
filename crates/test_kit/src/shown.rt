//! The words for values.

use crate::transcript::Transcript;
use cell_values::{Bytes, Cell, ChunkAt, Coord, Datum, FaultKind, Memory};

/// How many bytes of one kind are written as such.
const LONGEST_ROW: usize = 64;

/// The byte that a text has alone and so often that it is not written out.
fn repeated(bytes: &[u8]) -> Option<u8> {
    match bytes {
        [first, rest @ ..] if rest.len() >= LONGEST_ROW => {
            rest.iter().all(|byte| byte == first).then_some(*first)
        }
        _ => None,
    }
}

/// Adds a text as it is.
pub fn push_word(out: &mut Transcript, word: &str) {
    let told = out.text.push_str(word);
    out.note(told.is_ok());
}

/// Adds texts, one behind the other.
pub fn push_words(out: &mut Transcript, words: &[&str]) {
    for word in words {
        push_word(out, word);
    }
}

/// Adds a number that counts something.
pub fn push_count(out: &mut Transcript, number: u64) {
    let told = write!(out.text, "{number}");
    out.note(told.is_ok());
}

/// Adds a number between two texts.
pub fn push_numbered(out: &mut Transcript, before: &str, number: u64, behind: &str) {
    push_word(out, before);
    push_count(out, number);
    push_word(out, behind);
}

/// Adds a number, which may be below 0.
pub fn push_integer(out: &mut Transcript, number: i64) {
    let told = write!(out.text, "{number}");
    out.note(told.is_ok());
}

/// Adds bytes, each as two hexadecimal digits.
pub fn push_hex(out: &mut Transcript, bytes: &[u8]) {
    for byte in bytes {
        let told = write!(out.text, "{byte:02x}");
        out.note(told.is_ok());
    }
}

/// Adds a byte: one that is not printed as `^0a`.
fn push_byte(out: &mut Transcript, byte: u8) {
    let told = match byte {
        b' '..=b'~' => out.text.push(byte as char).is_ok(),
        _ => write!(out.text, "^{byte:02x}").is_ok(),
    };
    out.note(told);
}

/// Adds a text: more than 64 bytes of one kind as `{127 x}`.
pub fn push_text(out: &mut Transcript, bytes: &[u8]) {
    if let Some(byte) = repeated(bytes) {
        push_word(out, "{");
        push_count(out, bytes.len() as u64);
        push_word(out, " ");
        push_byte(out, byte);
        push_word(out, "}");
        return;
    }
    for byte in bytes {
        push_byte(out, *byte);
    }
}

/// Adds a text, and lets it go.
fn push_given(out: &mut Transcript, text: Bytes) {
    push_text(out, text.as_slice());
    drop(text);
}

/// Adds a text that was made, and lets it go.
pub fn push_made(out: &mut Transcript, made: Result<Bytes, Memory>) {
    match made {
        Ok(text) => push_given(out, text),
        Err(Memory) => out.note_short(),
    }
}

/// Adds two numbers, as `3-5`.
pub fn push_range(out: &mut Transcript, start: u64, end: u64) {
    push_count(out, start);
    push_word(out, "-");
    push_count(out, end);
}

/// Adds a text in quotes.
pub fn push_quoted(out: &mut Transcript, bytes: &[u8]) {
    push_word(out, "'");
    push_text(out, bytes);
    push_word(out, "'");
}

fn fault_word(kind: FaultKind) -> &'static str {
    match kind {
        FaultKind::Overflow => "overflow",
        FaultKind::DivideByZero => "divide-by-zero",
        FaultKind::OutOfBounds => "out-of-bounds",
        FaultKind::Collision => "collision",
        FaultKind::NullInNotNull => "null-in-not-null",
    }
}

/// The word for a truth.
pub fn truth_word(truth: bool) -> &'static str {
    if truth { "true" } else { "false" }
}

/// Adds a code, as `?7`.
pub fn push_code(out: &mut Transcript, number: u8) {
    push_word(out, "?");
    push_count(out, u64::from(number));
}

/// Adds a value: a text in quotes, else the word that stands for it.
pub fn push_datum(out: &mut Transcript, value: &Datum) {
    match value {
        Datum::Null => push_word(out, "null"),
        Datum::Missing(code) => push_code(out, code.number()),
        Datum::Int(number) => push_integer(out, *number),
        Datum::Truth(truth) => push_word(out, truth_word(*truth)),
        Datum::Bad(kind) => push_word(out, fault_word(*kind)),
        Datum::Text(bytes) => push_quoted(out, bytes.as_slice()),
    }
}

/// Adds a value, and lets it go.
pub fn push_value(out: &mut Transcript, value: Datum) {
    push_datum(out, &value);
    drop(value);
}

/// Adds a coordinate, as `(-1,2)`.
pub fn push_coord(out: &mut Transcript, at: &Coord) {
    let mut comma = "(";
    for number in at.as_slice() {
        push_word(out, comma);
        push_integer(out, *number);
        comma = ",";
    }
    push_word(out, ")");
}

/// Adds the values of a cell, each behind a space, or its doubt.
pub fn push_cell(out: &mut Transcript, cell: &Cell) {
    match cell {
        Cell::Full(values) => {
            for value in values.as_slice() {
                push_word(out, " ");
                push_datum(out, value);
            }
        }
        Cell::Doubt(kind) => push_words(out, &[" doubt(", fault_word(*kind), ")"]),
    }
}

/// Adds numbers, with a comma between.
pub fn push_counts(out: &mut Transcript, numbers: &[u64]) {
    let mut comma = "";
    for number in numbers {
        push_word(out, comma);
        push_count(out, *number);
        comma = ",";
    }
}

/// Adds the number of a chunk, as `[1,0]`.
pub fn push_number(out: &mut Transcript, at: &ChunkAt) {
    push_word(out, "[");
    push_counts(out, at.as_slice());
    push_word(out, "]");
}

/// Adds the number of a chunk, and the cell at each of its positions.
pub fn push_chunk(out: &mut Transcript, at: &ChunkAt, positions: &[u64], cells: &[Cell]) {
    push_word(out, "chunk ");
    push_number(out, at);
    for (position, cell) in positions.iter().zip(cells) {
        push_word(out, ", at ");
        push_count(out, *position);
        push_cell(out, cell);
    }
    push_word(out, "\n");
}
