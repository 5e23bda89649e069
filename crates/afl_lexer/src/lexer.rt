//! The tokens of a text, and the content of a text token.
ghost use Rattle.std.specs.Prelude.{◌≡◌, ◌<◌, ◌≤◌, ℕ, List, All, length, IfOk, IfErr};
ghost use Rattle.afl_lexer.specs.declared.token.TokenKind.{TokenKind};
ghost use Rattle.afl_lexer.specs.Lexemes.{bytes_of};
ghost use Rattle.afl_lexer.specs.Outcome.{IsStop, AnswersTokens, AnswersStop, HasTokensOrStop, HasNotBoth, HasOneList, HasOneStop};
ghost use Rattle.afl_lexer.specs.Quoted.{content_of};
ghost use Rattle.afl_lexer.specs.Spelling.{AreReadAgain};
ghost use Rattle.afl_lexer.specs.Tokens.{AreTokens, AreRising, IsTokenOf, LexStops, IsGap, IsLongest, BeginsAt, FailsAt};

use crate::gap::gap_end;
use crate::quoted::content;
use crate::reading::{Reading, read};
use crate::{LexFault, LexKind, Token};
use cell_values::{Bytes, List, Memory, Name, Span};
use std::alloc::Global;

/// The tokens of a text of at most 1,048,576 bytes, or where it stops to have any. Places count bytes from the text's first one.
pub fn tokens(alloc: Global, text: &[u8]) -> Result<List<Token>, LexFault>
    requires { length text.now ≤ 1048576 }
    ensures tokens { IfOk result (AreTokens text.now) }
    ensures each { IfOk result (All (IsTokenOf text.now)) }
    ensures rising { IfOk result (AreRising 0) }
    ensures stop { IfErr result (IsStop text.now) }

    // Whatever tokens or stop the text has, they are the answer, unless memory ran out.
    ensures only_tokens { (tokens : List Token) → AreTokens text.now tokens → AnswersTokens result tokens }
    ensures only_stop { (at : ℕ) (kind : LexKind) → LexStops text.now at kind → AnswersStop result at kind }
{
    let mut tokens = List::new(alloc);
    let mut at = gap_after(text, 0);
    while at < text.len() {
        let token = token_at(text, at)?;
        tokens.push(token)?;
        at = gap_after(text, token.span.end as usize);
    }
    Ok(tokens)
}

/// A fault and its place.
#[derive(Clone, Copy)]
struct Stop {
    at: u32,
    kind: LexKind,
}

impl From<Stop> for LexFault {
    ghost use Rattle.std.specs.Prelude.{◌≡◌};
    ghost use Rattle.afl_lexer.specs.declared.token.LexFault.{LexFault};

    ghost from_gives = { λ stop fault. fault ≡ LexFault.At stop.at stop.kind };

    fn from(stop: Stop) -> LexFault {
        LexFault::At {
            at: stop.at,
            kind: stop.kind,
        }
    }
}

/// Where the gap ends that begins at a place.
fn gap_after(text: &[u8], from: usize) -> usize
    requires { from ≤ length text.now }
    ensures { IsLongest IsGap text.now from result }
{
    from + gap_end(&text[from..])
}

/// The token that begins at a place.
fn token_at(text: &[u8], at: usize) -> Result<Token, Stop>
    requires within { at < length text.now }
    requires small { length text.now ≤ 1048576 }
    ensures token { IfOk result (λ token. BeginsAt text.now at token) }
    ensures fault { IfErr result (λ stop. FailsAt text.now at stop.at stop.kind) }
{
    match read(&text[at..]) {
        Reading::Found(kind, len) => Ok(Token {
            kind,
            span: Span {
                start: at as u32,
                end: (at + len) as u32,
            },
        }),
        Reading::Wrong(kind, further) => Err(Stop {
            at: (at + further) as u32,
            kind,
        }),
    }
}

/// The content of a text token: the bytes between its quotes, with `\'` and `\\` read.
pub fn text_value(alloc: Global, text: &[u8], token: &Token) -> Result<Bytes, Memory>
    requires of_text { IsTokenOf text.now token.now }
    requires kind { token.now.kind ≡ TokenKind.Text }
    ensures { IfOk result (λ bytes. bytes ≡ content_of (bytes_of text.now token.now.span)) }
{
    let start = token.span.start as usize + 1;
    let end = token.span.end as usize - 1;
    content(alloc, &text[start..end])
}

/// The name that a token is, in a list of its own.
pub fn name_value(alloc: Global, text: &[u8], token: &Token) -> Result<Name, Memory>
    requires of_text { IsTokenOf text.now token.now }
    requires kind { token.now.kind ≡ TokenKind.Name }
    ensures { IfOk result (λ name. name ≡ bytes_of text.now token.now.span) }
{
    let start = token.span.start as usize;
    let end = token.span.end as usize;
    match Name::new(List::from_slice(alloc, &text[start..end])?) {
        Some(name) => Ok(name),
        None => unreachable!(),
    }
}

/// Each text has its tokens or a place where it stops to have any, never both, and only one of these.
pub fn texts_have_tokens_or_stop()
    ensures tokens_or_stop { HasTokensOrStop }
    ensures not_both { HasNotBoth }
    ensures one_list { HasOneList }
    ensures one_stop { HasOneStop }
{}

/// What a printer spells is read as what it said, where nothing behind a token lengthens it.
pub fn spelled_lexemes_are_read_again()
    ensures { AreReadAgain }
{}
