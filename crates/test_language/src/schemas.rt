//! Schemas that are written as texts.
ghost use Rattle.std.specs.Prelude.{◌≤◌, length, IfSome};
ghost use Rattle.cell_values.specs.Schemas.{IsValid};

use crate::tokens::push_span;
use afl_lexer::tokens;
use cell_values::{MAX_STATEMENT, Schema};
use schema_grammar::{
    SchemaFault, SchemaText, ShapeFault, TypeKind, meaning, print_shape, schema_text, shape,
};
use std::alloc::Global;
use test_kit::{Transcript, push_made, push_numbered, push_word, push_words};

/// The syntax tree of a text's tokens from one on, and the token behind it.
fn read(alloc: Global, text: &[u8], from: usize) -> Result<(SchemaText, usize), ShapeFault>
    requires { length text.now ≤ 1048576 }
{
    match tokens(alloc, text) {
        Ok(tokens) => {
            let read = if from <= tokens.len() {
                shape(alloc, text, tokens.as_slice(), from)
            } else {
                Err(ShapeFault::Memory)
            };
            drop(tokens);
            read
        }
        Err(_) => Err(ShapeFault::Memory),
    }
}

/// The schema that a text means.
pub(crate) fn schema_in(alloc: Global, text: &[u8]) -> Option<Schema>
    ensures { IfSome result IsValid }
{
    if text.len() > MAX_STATEMENT {
        return None;
    }
    let (shape, _) = read(alloc, text, 0).ok()?;
    let schema = meaning(alloc, text, &shape);
    drop(shape);
    schema.ok()
}

fn rule_text(kind: TypeKind) -> &'static str {
    match kind {
        TypeKind::UnknownType => "unknown type",
        TypeKind::RepeatedName => "repeated name",
        TypeKind::BoundsOrder => "bounds order",
        TypeKind::BoundsRange => "bounds range",
        TypeKind::ZeroChunk => "zero chunk",
        TypeKind::OverlapTooLarge => "overlap too large",
        TypeKind::TooManyDimensions => "too many dimensions",
        TypeKind::TooManyAttributes => "too many attributes",
        TypeKind::ChunkTooLarge => "chunk too large",
        TypeKind::WrongCount => "wrong count",
        _ => "another rule",
    }
}

/// Adds the schema that a syntax tree means, or the first rule that it breaks with the place.
fn push_meaning(out: &mut Transcript, text: &[u8], shape: &SchemaText) {
    match meaning(out.alloc(), text, shape) {
        Ok(schema) => {
            let text = schema_text(out.alloc(), &schema);
            drop(schema);
            push_made(out, text);
        }
        Err(SchemaFault::Rule { span, kind }) => {
            push_span(out, "at ", &span);
            push_words(out, &[": ", rule_text(kind)]);
        }
        Err(SchemaFault::Memory) => push_word(out, "no memory"),
    }
}

/// Adds the schema as it is written for the word `tree`, else what it means and the token behind it.
fn push_shape(out: &mut Transcript, word: &str, text: &[u8], shape: &SchemaText, next: usize) {
    if word == "tree" {
        push_made(out, print_shape(out.alloc(), shape));
    } else {
        push_meaning(out, text, shape);
        push_numbered(out, " before token ", next as u64, "");
    }
}

/// Adds what is told of the schema that begins at the token that a word names, the first one where it names none.
pub(crate) fn push_schema(out: &mut Transcript, word: &str, text: &[u8])
    requires { length text.now ≤ 1048576 }
{
    match read(out.alloc(), text, word.parse::<usize>().unwrap_or(0)) {
        Ok((shape, next)) => {
            push_shape(out, word, text, &shape, next);
            drop(shape);
        }
        Err(ShapeFault::Unexpected { token }) => {
            push_numbered(out, "stop at token ", token as u64, "");
        }
        Err(ShapeFault::Memory) => push_word(out, "no tokens"),
    }
}
