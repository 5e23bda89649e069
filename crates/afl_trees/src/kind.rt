//! Why a text is no statement.

/// Why a token cannot stand where it stands.
#[derive(Clone, Copy)]
pub enum StopKind {
    /// No statement goes on so.
    Unexpected,
    /// Only a deeper statement does.
    TooDeep,
}

/// Why a text is no statement.
#[derive(Clone, Copy, Debug)]
pub enum ParseKind {
    UnknownCharacter,
    OpenText,
    BadEscape,
    TextTooLong,
    NameTooLong,
    LiteralTooLarge,
    /// No statement begins with the tokens up to this place.
    Unexpected,
    /// Only statements of a depth above 128 begin with the tokens up to this place.
    TooDeep,
}
