//! Why a statement was refused.

use afl_trees::ParseKind;
use cell_values::{Coord, FaultKind, Span};
use schema_grammar::TypeKind;

/// Why a statement was refused.
#[derive(Drop)]
pub enum Refusal {
    /// It has more than 1,048,576 bytes: so many.
    TooLong { bytes: u64 },
    /// It stops to be the front of a statement at this place, in bytes from its first one.
    Parse { at: u32, kind: ParseKind },
    /// The history holds all the entries that it may.
    HistoryFull,
    /// It is well formed and breaks a rule of types, at this part of it.
    Typing { span: Span, kind: TypeKind },
    /// The disk failed.
    Disk,
    /// A payload that begins at this page can't be read.
    Damaged { page: u32 },
    /// A cell of its array could not be computed: the first one.
    Cell { at: Coord, kind: FaultKind },
    /// No number is left for one more commit.
    SequenceEnd,
    /// Its change needs more pages than are free.
    Full { needed: u32, free: u32 },
    /// No memory was found for its reply.
    Memory,
}
