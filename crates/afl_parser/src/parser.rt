//! The parser: from a text to its tree.
ghost use Rattle.std.specs.Prelude.{◌≡◌, ◌≤◌, ℕ, All, drop, length, IfOk, IfErr};
ghost use Rattle.afl_lexer.specs.Tokens.{IsTokenOf};
ghost use Rattle.afl_trees.specs.Term.{Term};
ghost use Rattle.afl_trees.specs.Grammar.{IsStatement};
ghost use Rattle.afl_trees.specs.Statement.{lexemes, DerivesText, StopsText, start_of};
ghost use Rattle.afl_parser.specs.Inner.Reply.{placed, IsTokenStop, at_token, in_token};
ghost use Rattle.afl_parser.specs.Outcome.{IsTextStop, AnswersTree, AnswersStop};
ghost use Rattle.afl_trees.specs.declared.kind.ParseKind.{ParseKind};

use crate::fault::{ParseFault, lexical, syntactic};
use crate::frame::{Focus, Stack};
use crate::reader::{Fault, Reader};
use afl_lexer::{LexFault, Token, tokens};
use afl_trees::{StopKind, Tree};
use std::alloc::Global;

/// Why tokens have no tree.
#[derive(Clone, Copy)]
pub(crate) enum TokenFault {
    /// The place of the token among the tokens, or their number.
    At { index: usize, kind: StopKind },
    /// No memory was left.
    Memory,
}

impl Fault {
    /// The fault at a place among the tokens.
    fn placed(self, index: usize) -> TokenFault
        ensures { result ≡ placed index self }
    {
        match self {
            Fault::Stop(kind) => TokenFault::At { index, kind },
            Fault::Memory => TokenFault::Memory,
        }
    }
}

/// The tree of a text's tokens, or where and why they stop to be the front of a statement.
pub(crate) fn read_tokens(alloc: Global, text: &[u8], tokens: &[Token]) -> Result<Tree, TokenFault>
    requires { All (IsTokenOf text.now) tokens.now }
    ensures tree { IfOk result (λ t. IsStatement 128 (lexemes text.now tokens.now) t) }
    ensures stop { IfErr result (λ fault. IsTokenStop 128 (lexemes text.now tokens.now) fault) }
{
    let mut reader = Reader {
        stack: Stack::new(alloc),
        focus: Focus::Start,
    };
    for (index, token) in tokens.iter().enumerate() {
        match reader.read(alloc, text, *token) {
            Ok(next) => reader = next,
            Err(fault) => return Err(fault.placed(index)),
        }
    }
    match reader.finish(alloc) {
        Ok(tree) => Ok(tree),
        Err(fault) => Err(fault.placed(tokens.len())),
    }
}

/// Where a token starts, or the text ends.
fn place_of(text: &[u8], tokens: &[Token], index: usize) -> u32
    requires { length text.now ≤ 1048576 }
    ensures { result ≡ start_of text.now (drop index tokens.now) }
{
    match tokens.get(index) {
        Some(token) => token.span.start,
        None => text.len() as u32,
    }
}

/// A fault among the tokens as a fault in the text.
fn at_token(text: &[u8], tokens: &[Token], fault: TokenFault) -> ParseFault
    requires { length text.now ≤ 1048576 }
    ensures { result ≡ at_token text.now tokens.now fault }
{
    match fault {
        TokenFault::At { index, kind } => ParseFault::At {
            at: place_of(text, tokens, index),
            kind: syntactic(kind),
        },
        TokenFault::Memory => ParseFault::Memory,
    }
}

/// A fault within a token as a fault in the text.
fn in_token(fault: LexFault) -> ParseFault
    ensures { result ≡ in_token fault }
{
    match fault {
        LexFault::At { at, kind } => ParseFault::At {
            at,
            kind: lexical(kind),
        },
        LexFault::Memory => ParseFault::Memory,
    }
}

/// The tree of a statement of at most 1,048,576 bytes, or where and why the text stops to be the front of one.
pub fn parse(alloc: Global, text: &[u8]) -> Result<Tree, ParseFault>
    requires { length text.now ≤ 1048576 }
    ensures tree { IfOk result (DerivesText text.now) }
    ensures stop { IfErr result (IsTextStop text.now) }

    // Whatever tree or stop the text has, it is the answer, unless memory ran out.
    ensures only_tree { (t : Term) → DerivesText text.now t → AnswersTree result t }
    ensures only_stop { (at : ℕ) (kind : ParseKind) → StopsText text.now at kind → AnswersStop result at kind }
{
    match tokens(alloc, text) {
        Ok(tokens) => {
            let tokens = tokens.as_slice();
            match read_tokens(alloc, text, tokens) {
                Ok(tree) => Ok(tree),
                Err(fault) => Err(at_token(text, tokens, fault)),
            }
        }
        Err(fault) => Err(in_token(fault)),
    }
}
