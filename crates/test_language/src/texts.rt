//! The tokens of a text, the pieces of a script or the schema that a text has, or where and why it has none.
//!
//! In a line `{64 n}` stands for 64 of `n`, and `^0a` for the byte of that number. `tokens TEXT` is answered by each token
//! with its place, `split TEXT` by each piece of a script, `schema 1 TEXT` by the schema that begins at token 1, and
//! `tree TEXT` by the schema as it is written. `array A 4 1,3 SCHEMA`, an array with its next number and its versions, is
//! answered by the texts of `show` and `versions`, of a store and of another change, `list` and such arrays with `|` between
//! by their list, and `refusal full 3 1` by the refusal's line. `cells TEXT` is answered by both texts of an array whose cells
//! are the parts of the text between each `|`.

use crate::arrays::push_cells;
use crate::pieces::push_pieces;
use crate::replies::{push_array, push_list, push_refusal};
use crate::schemas::push_schema;
use crate::tokens::push_tokens;
use cell_values::{Bytes, MAX_STATEMENT, Memory};
use std::alloc::Global;
use std::str::from_utf8;
use test_kit::{Transcript, bytes_of, push_word, push_words, text_of};

/// The first word of a text, and what stands behind it.
pub(crate) fn front_of(text: &str) -> (&str, &str) {
    text.split_once(' ').unwrap_or((text, ""))
}

/// The bytes that a line stands for.
fn script_of(alloc: Global, line: &str) -> Result<Bytes, Memory> {
    let text = text_of(alloc, line.as_bytes())?;
    let bytes = bytes_of(alloc, from_utf8(text.as_slice()).unwrap_or(""));
    drop(text);
    bytes
}

/// Adds what bytes are told to be.
fn push_script(out: &mut Transcript, word: &str, script: &[u8]) {
    match word {
        "split" => push_pieces(out, script),
        "cells" => push_cells(out, from_utf8(script).unwrap_or("")),
        _ if script.len() > MAX_STATEMENT => push_word(out, "too long"),
        "tokens" => push_tokens(out, script),
        word => push_schema(out, word, script),
    }
}

/// Adds what the bytes are told to be that a line stands for.
fn push_bytes(out: &mut Transcript, word: &str, line: &str) {
    match script_of(out.alloc(), line) {
        Ok(script) => {
            push_script(out, word, script.as_slice());
            drop(script);
        }
        Err(Memory) => out.note_short(),
    }
}

/// Adds a line and its answer.
pub(crate) fn push_text_line(out: &mut Transcript, line: &str) {
    push_words(out, &["> ", line, "\n"]);
    let (word, rest) = front_of(line);
    match word {
        "schema" => {
            let (from, text) = front_of(rest);
            push_bytes(out, from, text);
        }
        "array" => push_array(out, rest),
        "list" => push_list(out, rest),
        "refusal" => push_refusal(out, rest),
        word => push_bytes(out, word, rest),
    }
    push_word(out, "\n");
}
