//! What checking makes of a statement over a few stored arrays: the versions that it reads and the schema of what it gives, the change or
//! listing that it is, or the first rule that it breaks with the place.
//!
//! Behind `#full `, `#last ` and `#none ` a statement is checked over other arrays: as many as there may be, and an array with a number
//! for one more version or for none.
ghost use Rattle.afl_types.specs.Arrays.{AreValid};

use crate::stored::names;
use crate::told::push_typed;
use crate::without_end;
use afl_parser::parse;
use afl_trees::{Tree, let_go_tree};
use afl_types::{TypeFault, check};
use cell_values::{MAX_STATEMENT, Memory, Span};
use logical_plan::Names;
use result_print::{Refusal, refusal_line};
use schema_grammar::TypeKind;
use std::str::from_utf8;
use test_kit::{Transcript, push_word};

/// Adds the rule that a statement breaks, with the place.
fn push_fault(out: &mut Transcript, span: Span, kind: TypeKind) {
    match refusal_line(out.alloc(), &Refusal::Typing { span, kind }) {
        Ok(line) => {
            let text = from_utf8(without_end(line.as_slice()));
            push_word(out, text.unwrap_or("no text"));
            drop(line);
        }
        Err(Memory) => out.note_short(),
    }
}

/// Adds what checking answers to a tree.
fn push_checked(out: &mut Transcript, text: &[u8], tree: &Tree, names: &Names)
    requires { AreValid names.now.arrays }
{
    match check(out.alloc(), tree, text, names) {
        Ok(typed) => {
            push_typed(out, &typed);
            drop(typed);
        }
        Err(TypeFault::Rule { span, kind }) => push_fault(out, span, kind),
        Err(TypeFault::Memory) => push_word(out, "no memory"),
    }
}

/// Adds what checking answers to a statement.
fn push_statement(out: &mut Transcript, text: &[u8], names: &Names)
    requires { AreValid names.now.arrays }
{
    if text.len() > MAX_STATEMENT {
        push_word(out, "too long");
        return;
    }
    match parse(out.alloc(), text) {
        Ok(tree) => {
            push_checked(out, text, &tree, names);
            let_go_tree(tree);
        }
        Err(_) => push_word(out, "no statement"),
    }
}

/// The number of the next version of `A`, how many arrays stand beside the few, and the statement of a line.
fn statement_in(line: &[u8]) -> (usize, usize, &[u8]) {
    if let Some(text) = line.strip_prefix(b"#full ".as_slice()) {
        (7, 1_019, text)
    } else if let Some(text) = line.strip_prefix(b"#last ".as_slice()) {
        (65_535, 0, text)
    } else if let Some(text) = line.strip_prefix(b"#none ".as_slice()) {
        (65_536, 0, text)
    } else {
        (7, 0, line)
    }
}

/// Adds what checking answers to the statement of a line.
pub(crate) fn push_checked_line(out: &mut Transcript, line: &[u8]) {
    let (next, others, text) = statement_in(line);
    let names = names(out, next, others);
    push_statement(out, text, &names);
    drop(names);
    push_word(out, "\n");
}
