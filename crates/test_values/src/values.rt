//! Calls on values and their operands, and the lines of those tables whose calls are words.
//!
//! `2 - 5` and `not ?7` are calls of the value table, `name a1` and `code 7` ask for a name and a code. `row`, `bounds` and
//! `broken` copy what they are given, `order`, `same` and `box` compare coordinates. A line `list ..` calls one list, which
//! the next such line finds as it was left. In a line `{64 n}` stands for 64 of `n`.

use crate::Table;
use crate::aggregates::push_aggregate;
use crate::calls::{push_one, push_two};
use crate::coordinates::{order_of, push_bounds, push_broken, push_row, side_of};
use crate::lists::Lists;
use crate::places::push_chunk_call;
use crate::words::front_of;
use cell_values::{Bytes, Code, Memory, Name};
use std::str::from_utf8;
use test_kit::{Transcript, push_count, push_text, push_word, text_of};

fn push_name_in(out: &mut Transcript, text: Bytes) {
    match Name::new(text) {
        Some(name) => {
            push_text(out, name.as_slice());
            drop(name);
        }
        None => push_word(out, "no name"),
    }
}

/// Adds the name that a text is.
fn push_name(out: &mut Transcript, text: &str) {
    match Bytes::from_slice(out.alloc(), text.as_bytes()) {
        Ok(text) => push_name_in(out, text),
        Err(Memory) => out.note_short(),
    }
}

/// Adds the code of a number.
fn push_code(out: &mut Transcript, number: &str) {
    match Code::new(number.parse::<u8>().unwrap_or(0)) {
        Some(code) => {
            push_word(out, "code ");
            push_count(out, u64::from(code.number()));
        }
        None => push_word(out, "no code"),
    }
}

/// Adds the answer to a call on coordinates, or to one of the value table, whose first word is its sign or its first operand.
fn push_worked(out: &mut Transcript, word: &str, operands: &str) {
    match word {
        "order" => push_word(out, order_of(operands)),
        "box" => push_word(out, side_of(operands)),
        "-" => push_one(out, word, operands),
        "not" => push_one(out, word, operands),
        word => push_two(out, word, operands),
    }
}

/// Adds the answer to a call.
fn push_call(out: &mut Transcript, lists: &mut Lists, word: &str, operands: &str) {
    match word {
        "list" => lists.push_call(out, operands),
        "name" => push_name(out, operands),
        "code" => push_code(out, operands),
        "row" => push_row(out, operands),
        "bounds" => push_bounds(out, operands),
        "broken" => push_broken(out, operands),
        word => push_worked(out, word, operands),
    }
}

/// Adds the answer to a text.
fn push_answer(out: &mut Transcript, lists: &mut Lists, table: Table, text: &str) {
    let (word, operands) = front_of(text);
    match table {
        Table::Values => {
            push_call(out, lists, word, operands);
            push_word(out, "\n");
        }
        Table::Chunks => push_chunk_call(out, word, operands),
        Table::Aggregates => {
            push_aggregate(out, operands);
            push_word(out, "\n");
        }
    }
}

/// Adds the answer to a line of a table.
pub(crate) fn push_call_line(out: &mut Transcript, lists: &mut Lists, table: Table, line: &str) {
    match text_of(out.alloc(), line.as_bytes()) {
        Ok(text) => {
            push_answer(out, lists, table, from_utf8(text.as_slice()).unwrap_or(""));
            drop(text);
        }
        Err(Memory) => out.note_short(),
    }
}
