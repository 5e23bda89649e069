//! The outline of a tree: a bracket round each node that has parts, and each node's span behind it.

use crate::tokens::push_span;
use crate::told::{name_text, push_written};
use afl_trees::{Node, Tree};
use test_kit::{
    Transcript, push_code, push_integer, push_quoted, push_word, push_words, truth_word,
};

/// Adds a node that has no parts.
fn write_leaf(node: &Node, out: &mut Transcript) {
    match node {
        Node::Create(name, _) => push_words(out, &["create ", name_text(name)]),
        Node::Number(n) => push_integer(out, *n),
        Node::Text(bytes) => push_quoted(out, bytes.as_slice()),
        Node::Truth(truth) => push_word(out, truth_word(*truth)),
        Node::Null => push_word(out, "null"),
        Node::Missing(code) => push_code(out, code.number()),
        Node::Ref(name) => push_word(out, name_text(name)),
        Node::Version(name, number) => {
            push_words(out, &[name_text(name), "@"]);
            push_integer(out, *number);
        }
        Node::Schema(_) => push_word(out, "schema"),
        Node::Star => push_word(out, "*"),
        _ => {}
    }
}

/// Adds a word, and a node up to its first part.
fn write_front(before: &str, node: &Node, out: &mut Transcript) {
    push_word(out, before);
    match node {
        Node::Call(name, _) => push_words(out, &["(", name_text(name)]),
        Node::As(..) => push_word(out, "(as "),
        Node::Not(_) => push_word(out, "(not "),
        Node::Minus(_) => push_word(out, "(- "),
        Node::Binary(op, _, _) => {
            let written = format!(in out.alloc(); "({op:?} ");
            push_written(out, written);
        }
        Node::Group(_) => push_word(out, "["),
        leaf => write_leaf(leaf, out),
    }
}

/// Adds what stands behind the last part of a tree's node, and the tree's span.
fn write_end(tree: &Tree, out: &mut Transcript) {
    match &tree.node {
        Node::As(_, name) => push_words(out, &[" ", name_text(name), ")"]),
        Node::Call(..) | Node::Not(_) | Node::Minus(_) | Node::Binary(..) => push_word(out, ")"),
        Node::Group(_) => push_word(out, "]"),
        _ => {}
    }
    push_span(out, ":", &tree.span);
}

/// Adds the outline of a tree behind a word.
pub(crate) fn write_outline(before: &str, tree: &Tree, out: &mut Transcript) {
    write_front(before, &tree.node, out);
    match &tree.node {
        Node::Call(_, arguments) => {
            for argument in arguments {
                write_outline(" ", argument, out);
            }
        }
        Node::As(inner, _) | Node::Not(inner) | Node::Minus(inner) | Node::Group(inner) => {
            write_outline("", inner, out);
        }
        Node::Binary(_, left, right) => {
            write_outline("", left, out);
            write_outline(" ", right, out);
        }
        _ => {}
    }
    write_end(tree, out);
}
