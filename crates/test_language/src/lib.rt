//! What lexing, parsing and checking make of a text: for programs of tests that have tables of such texts.
//!
//! In a table a line that begins with `##` is a title, and is printed as it is.
#![tactic(auto)]

mod arrays;
mod checking;
mod outline;
mod parsing;
mod pieces;
mod replies;
mod schemas;
mod stored;
mod texts;
mod tokens;
mod told;

use checking::push_checked_line;
use parsing::push_parsed_line;
use std::str::from_utf8;
use test_kit::{Transcript, push_words};
use texts::push_text_line;

/// What the lines of a table are.
#[derive(Clone, Copy)]
enum Table {
    Texts,
    Parsing,
    Checking,
}

/// The table below a title.
fn table_of(title: &str) -> Option<Table> {
    match title {
        "texts" => Some(Table::Texts),
        "parsing" => Some(Table::Parsing),
        "checking" => Some(Table::Checking),
        _ => None,
    }
}

/// Adds a title, or what is told of another line.
fn push_line(out: &mut Transcript, table: Table, line: &[u8]) {
    match table {
        _ if line.starts_with(b"##".as_slice()) => {
            push_words(out, &[from_utf8(line).unwrap_or("##"), "\n"]);
        }
        Table::Texts => push_text_line(out, from_utf8(line).unwrap_or("no text")),
        Table::Parsing => push_parsed_line(out, line),
        Table::Checking => push_checked_line(out, line),
    }
}

/// A line without the line feed at its end.
fn without_end(line: &[u8]) -> &[u8] {
    match line {
        [text @ .., b'\n'] => text,
        text => text,
    }
}

/// Adds the title of a table of texts, and what is told of its lines, which need not be UTF-8; nothing where the title is another one.
pub fn push_language_table(out: &mut Transcript, title: &str, text: &[u8]) {
    if let Some(table) = table_of(title) {
        push_words(out, &["### ", title, "\n"]);
        for line in text.split_inclusive(|byte| *byte == b'\n') {
            push_line(out, table, without_end(line));
        }
    }
}
