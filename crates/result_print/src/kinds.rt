//! The words of kinds.
ghost use Rattle.std.specs.Prelude.{◌≡◌};
ghost use Rattle.result_print.specs.Lines.{fault_text, stop_text, type_text};

use afl_trees::ParseKind;
use cell_values::FaultKind;
use schema_grammar::TypeKind;

pub(crate) fn fault_words(kind: FaultKind) -> &'static [u8]
    ensures { result.now ≡ fault_text kind }
{
    match kind {
        FaultKind::Overflow => b"overflow",
        FaultKind::DivideByZero => b"divide by zero",
        FaultKind::OutOfBounds => b"out of bounds",
        FaultKind::Collision => b"collision",
        FaultKind::NullInNotNull => b"null in not null",
    }
}

pub(crate) fn stop_words(kind: ParseKind) -> &'static [u8]
    ensures { result.now ≡ stop_text kind }
{
    match kind {
        ParseKind::UnknownCharacter => b"unknown character",
        ParseKind::OpenText => b"open text",
        ParseKind::BadEscape => b"bad escape",
        ParseKind::TextTooLong => b"text too long",
        ParseKind::NameTooLong => b"name too long",
        ParseKind::LiteralTooLarge => b"literal too large",
        ParseKind::Unexpected => b"unexpected",
        ParseKind::TooDeep => b"too deep",
    }
}

pub(crate) fn type_words(kind: TypeKind) -> &'static [u8]
    ensures { result.now ≡ type_text kind }
{
    match kind {
        TypeKind::UnknownType => b"unknown type",
        TypeKind::RepeatedName => b"repeated name",
        TypeKind::BoundsOrder => b"bounds order",
        TypeKind::BoundsRange => b"bounds range",
        TypeKind::ZeroChunk => b"zero chunk",
        TypeKind::OverlapTooLarge => b"overlap too large",
        TypeKind::TooManyDimensions => b"too many dimensions",
        TypeKind::TooManyAttributes => b"too many attributes",
        TypeKind::ChunkTooLarge => b"chunk too large",
        TypeKind::UnknownArray => b"unknown array",
        TypeKind::UnknownVersion => b"unknown version",
        TypeKind::UnknownName => b"unknown name",
        TypeKind::WrongType => b"wrong type",
        TypeKind::WrongCount => b"wrong count",
        TypeKind::OutOfRange => b"out of range",
        TypeKind::BoundsDiffer => b"bounds differ",
        TypeKind::NotBounded => b"not bounded",
        TypeKind::EmptyBox => b"empty box",
        TypeKind::BadLiteral => b"bad literal",
        TypeKind::TooManyCells => b"too many cells",
        TypeKind::NameTooLong => b"name too long",
        TypeKind::WindowTooLarge => b"window too large",
        TypeKind::ArrayExists => b"array exists",
        TypeKind::SchemaDiffers => b"schema differs",
        TypeKind::TooManyArrays => b"too many arrays",
        TypeKind::TooManyVersions => b"too many versions",
    }
}
