//! Whether a text is a statement, or where and why it stops to be the front of one.
//!
//! In a line `~` stands for a line feed, and `{127 (}` for 127 of `(`. A line that begins with `tree: ` is answered by the
//! outline of the tree of the statement behind that word, and one that begins with `print: ` by its printed form.

use crate::outline::write_outline;
use crate::told::push_written;
use afl_parser::{ParseFault, parse};
use afl_trees::{Tree, let_go_tree, print};
use cell_values::{Bytes, MAX_STATEMENT, Memory};
use std::alloc::Global;
use test_kit::{Transcript, push_made, push_word, text_of};

/// What is told of a statement.
#[derive(Clone, Copy)]
enum Form {
    Word,
    Outline,
    Print,
}

/// What a line asks for, and the text behind the word that asks for it.
fn form_of(line: &[u8]) -> (Form, &[u8]) {
    if let Some(text) = line.strip_prefix(b"tree: ".as_slice()) {
        (Form::Outline, text)
    } else if let Some(text) = line.strip_prefix(b"print: ".as_slice()) {
        (Form::Print, text)
    } else {
        (Form::Word, line)
    }
}

/// How a copy of a tree is printed.
fn printed_copy(alloc: Global, tree: &Tree) -> Result<Bytes, Memory> {
    let copy = tree.copy()?;
    let printed = print(alloc, &copy);
    let_go_tree(copy);
    printed
}

/// Adds what is told of a tree.
fn push_tree(out: &mut Transcript, form: Form, tree: &Tree) {
    match form {
        Form::Word => push_word(out, "ok"),
        Form::Outline => write_outline("", tree, out),
        Form::Print => push_made(out, printed_copy(out.alloc(), tree)),
    }
}

/// Adds what the parser answers to a text.
fn push_parsed(out: &mut Transcript, form: Form, text: &[u8]) {
    if text.len() > MAX_STATEMENT {
        push_word(out, "too long");
        return;
    }
    match parse(out.alloc(), text) {
        Ok(tree) => {
            push_tree(out, form, &tree);
            let_go_tree(tree);
        }
        Err(ParseFault::At { at, kind }) => {
            let written = format!(in out.alloc(); "at {at}: {kind:?}");
            push_written(out, written);
        }
        Err(ParseFault::Memory) => push_word(out, "no memory"),
    }
}

/// Adds what the parser answers to the text that a line stands for.
pub(crate) fn push_parsed_line(out: &mut Transcript, line: &[u8]) {
    let (form, rest) = form_of(line);
    match text_of(out.alloc(), rest) {
        Ok(text) => {
            push_parsed(out, form, text.as_slice());
            drop(text);
        }
        Err(Memory) => out.note_short(),
    }
    push_word(out, "\n");
}
