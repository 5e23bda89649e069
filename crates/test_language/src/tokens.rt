//! Tokens, with their places.
ghost use Rattle.std.specs.Prelude.{◌≤◌, length};
ghost use Rattle.afl_lexer.specs.Tokens.{IsTokenOf};

use afl_lexer::{
    LexFault, LexKind, Symbol, Token, TokenKind, Word, name_value, text_value, tokens,
};
use cell_values::{Memory, Name, Span};
use test_kit::{
    Transcript, push_code, push_integer, push_made, push_numbered, push_range, push_text,
    push_word, push_words,
};

fn word_text(word: Word) -> &'static str {
    match word {
        Word::And => "and",
        Word::Or => "or",
        Word::Not => "not",
        Word::Null => "null",
        Word::True => "true",
        Word::False => "false",
        Word::As => "as",
        Word::Create => "create",
        Word::Array => "array",
    }
}

fn symbol_text(symbol: Symbol) -> &'static str {
    match symbol {
        Symbol::LeftParen => "(",
        Symbol::RightParen => ")",
        Symbol::LeftBracket => "[",
        Symbol::RightBracket => "]",
        Symbol::Less => "<",
        Symbol::More => ">",
        Symbol::AtMost => "<=",
        Symbol::AtLeast => ">=",
        Symbol::Equal => "=",
        Symbol::Differs => "<>",
        Symbol::NotEqual => "!=",
        Symbol::Comma => ",",
        Symbol::Colon => ":",
        Symbol::Star => "*",
        Symbol::Plus => "+",
        Symbol::Minus => "-",
        Symbol::Slash => "/",
        Symbol::Percent => "%",
        Symbol::At => "@",
    }
}

fn fault_text(kind: LexKind) -> &'static str {
    match kind {
        LexKind::UnknownCharacter => "unknown character",
        LexKind::OpenText => "open text",
        LexKind::BadEscape => "bad escape",
        LexKind::TextTooLong => "text too long",
        LexKind::NameTooLong => "name too long",
        LexKind::LiteralTooLarge => "literal too large",
    }
}

/// Adds a place behind a word, as `at 3-5`.
pub(crate) fn push_span(out: &mut Transcript, before: &str, span: &Span) {
    push_word(out, before);
    push_range(out, u64::from(span.start), u64::from(span.end));
}

/// Adds a name that was made, and lets it go.
fn push_name(out: &mut Transcript, made: Result<Name, Memory>) {
    match made {
        Ok(name) => {
            push_text(out, name.as_slice());
            drop(name);
        }
        Err(Memory) => out.note_short(),
    }
}

/// Adds what a token stands for.
fn push_meaning(out: &mut Transcript, text: &[u8], token: &Token)
    requires { IsTokenOf text.now token.now }
{
    let alloc = out.alloc();
    match token.kind {
        TokenKind::Name => push_name(out, name_value(alloc, text, token)),
        TokenKind::Int(number) => push_integer(out, number),
        TokenKind::Code(code) => push_code(out, code),
        TokenKind::Word(word) => push_words(out, &["word ", word_text(word)]),
        TokenKind::Symbol(symbol) => push_word(out, symbol_text(symbol)),
        TokenKind::Text => {
            push_word(out, "'");
            push_made(out, text_value(alloc, text, token));
            push_word(out, "'");
        }
    }
}

/// Adds the tokens of a text, each with its place, or where and why it stops to have any.
pub(crate) fn push_tokens(out: &mut Transcript, text: &[u8])
    requires { length text.now ≤ 1048576 }
{
    match tokens(out.alloc(), text) {
        Ok(found) => {
            let mut bar = "";
            for token in found.as_slice() {
                push_word(out, bar);
                push_meaning(out, text, token);
                push_span(out, " ", &token.span);
                bar = " | ";
            }
            drop(found);
        }
        Err(LexFault::At { at, kind }) => {
            push_numbered(out, "at ", u64::from(at), ": ");
            push_word(out, fault_text(kind));
        }
        Err(LexFault::Memory) => push_word(out, "no memory"),
    }
}
