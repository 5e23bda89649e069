//! Why a text has no tree.
ghost use Rattle.std.specs.Prelude.{◌≡◌};
ghost use Rattle.afl_trees.specs.Statement.{syntactic, lexical};

use afl_lexer::LexKind;
use afl_trees::{ParseKind, StopKind};

/// Why there is no tree.
#[derive(Clone, Copy)]
pub enum ParseFault {
    /// The text stops to be the front of a statement at this place, in bytes from its first one.
    At { at: u32, kind: ParseKind },
    /// No memory was left.
    Memory,
}

/// The kind of a fault within a token.
pub(crate) fn lexical(kind: LexKind) -> ParseKind
    ensures { result ≡ lexical kind }
{
    match kind {
        LexKind::UnknownCharacter => ParseKind::UnknownCharacter,
        LexKind::OpenText => ParseKind::OpenText,
        LexKind::BadEscape => ParseKind::BadEscape,
        LexKind::TextTooLong => ParseKind::TextTooLong,
        LexKind::NameTooLong => ParseKind::NameTooLong,
        LexKind::LiteralTooLarge => ParseKind::LiteralTooLarge,
    }
}

/// The kind of a fault between tokens.
pub(crate) fn syntactic(kind: StopKind) -> ParseKind
    ensures { result ≡ syntactic kind }
{
    match kind {
        StopKind::Unexpected => ParseKind::Unexpected,
        StopKind::TooDeep => ParseKind::TooDeep,
    }
}
