//! Tokens, and the faults of a text that has none.

use cell_values::{Memory, Span};

/// A token and its place in the text, in bytes from the text's first one.
#[derive(Clone, Copy)]
pub struct Token {
    pub kind: TokenKind,
    pub span: Span,
}

/// What a token is. The bytes of a name and the content of a text are found by the token's span.
#[derive(Clone, Copy)]
pub enum TokenKind {
    /// A letter or `_`, then letters, digits and `_`: 1 to 64 bytes, and no reserved word.
    Name,
    /// Digits, by their value.
    Int(i64),
    /// Bytes in quotes, of which at most 65,535 are the content.
    Text,
    /// `?` and digits, by their value, which is at most 127.
    Code(u8),
    Word(Word),
    Symbol(Symbol),
}

/// A reserved word.
#[derive(Clone, Copy)]
pub enum Word {
    And,
    Or,
    Not,
    Null,
    True,
    False,
    As,
    Create,
    Array,
}

/// A symbol.
#[derive(Clone, Copy)]
pub enum Symbol {
    /// `(`
    LeftParen,
    /// `)`
    RightParen,
    /// `[`
    LeftBracket,
    /// `]`
    RightBracket,
    /// `<`
    Less,
    /// `>`
    More,
    /// `<=`
    AtMost,
    /// `>=`
    AtLeast,
    /// `=`
    Equal,
    /// `<>`
    Differs,
    /// `!=`
    NotEqual,
    /// `,`
    Comma,
    /// `:`
    Colon,
    /// `*`
    Star,
    /// `+`
    Plus,
    /// `-`
    Minus,
    /// `/`
    Slash,
    /// `%`
    Percent,
    /// `@`
    At,
}

/// Why a text stops to have tokens.
#[derive(Clone, Copy)]
pub enum LexKind {
    /// No token begins with this byte.
    UnknownCharacter,
    /// A text has no closing quote.
    OpenText,
    /// In a text, a `\` is followed by neither `'` nor `\`.
    BadEscape,
    /// The content of a text has more than 65,535 bytes.
    TextTooLong,
    /// A name has more than 64 bytes.
    NameTooLong,
    /// A number above 9,223,372,036,854,775,807, or a code above 127.
    LiteralTooLarge,
}

/// Why there are no tokens.
#[derive(Clone, Copy)]
pub enum LexFault {
    /// The text stops to have tokens at this place, in bytes from its first one.
    At { at: u32, kind: LexKind },
    /// No memory was left.
    Memory,
}

impl From<Memory> for LexFault {
    ghost use Rattle.std.specs.Prelude.{◌≡◌};
    ghost use Rattle.afl_lexer.specs.declared.token.LexFault.{LexFault};

    ghost from_gives = { λ _ e. e ≡ LexFault.Memory };

    fn from(_: Memory) -> LexFault {
        LexFault::Memory
    }
}
