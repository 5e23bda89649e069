//! Why a statement is refused before it is run.
use afl_lexer::{Memory, Span};

/// What is wrong with a statement that is well formed.
#[derive(Clone, Copy)]
pub enum TypeKind {
    UnknownType,
    RepeatedName,
    BoundsOrder,
    BoundsRange,
    ZeroChunk,
    OverlapTooLarge,
    TooManyDimensions,
    TooManyAttributes,
    ChunkTooLarge,
    UnknownArray,
    UnknownVersion,
    UnknownName,
    WrongType,
    WrongCount,
    OutOfRange,
    BoundsDiffer,
    NotBounded,
    EmptyBox,
    BadLiteral,
    TooManyCells,
    NameTooLong,
    WindowTooLarge,
    ArrayExists,
    SchemaDiffers,
    TooManyArrays,
    TooManyVersions,
}

/// Why a syntax tree of a schema means none.
#[derive(Clone, Copy)]
pub enum SchemaFault {
    /// The first rule that it breaks, with the place of what breaks it.
    Rule { span: Span, kind: TypeKind },
    /// No memory was left.
    Memory,
}

impl From<Memory> for SchemaFault {
    ghost use Rattle.std.specs.Prelude.{◌≡◌};
    ghost use Rattle.schema_grammar.specs.declared.kinds.SchemaFault.{SchemaFault};

    ghost from_gives = { λ _ e. e ≡ SchemaFault.Memory };

    fn from(_: Memory) -> SchemaFault {
        SchemaFault::Memory
    }
}
