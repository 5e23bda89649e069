//! What calls on values, chunks and aggregates give: for programs of tests that have tables of such calls.
//!
//! In a table a line that begins with `##` is a title, and is printed as it is; each other line is printed behind `> `, above its answer.
#![tactic(auto)]

mod aggregates;
mod calls;
mod coordinates;
mod lists;
mod payloads;
mod places;
mod show;
mod values;
mod words;

use lists::Lists;
use test_kit::{Transcript, begin_answer, push_words};
use values::push_call_line;

/// What the lines of a table are.
#[derive(Clone, Copy)]
pub(crate) enum Table {
    Values,
    Chunks,
    Aggregates,
}

/// The table below a title.
fn table_of(title: &str) -> Option<Table> {
    match title {
        "values" => Some(Table::Values),
        "chunks" => Some(Table::Chunks),
        "aggregates" => Some(Table::Aggregates),
        _ => None,
    }
}

/// Adds each line, and its answer.
fn push_lines(out: &mut Transcript, lists: &mut Lists, table: Table, text: &str) {
    for line in text.lines() {
        if begin_answer(out, line) {
            push_call_line(out, lists, table, line);
        }
    }
}

/// Adds the title of a table of calls, and its lines with their answers; nothing where the title is another one.
pub fn push_value_table(out: &mut Transcript, title: &str, text: &str) {
    if let Some(table) = table_of(title) {
        push_words(out, &["### ", title, "\n"]);
        let mut lists = Lists::new(out.alloc());
        push_lines(out, &mut lists, table, text);
        drop(lists);
    }
}
