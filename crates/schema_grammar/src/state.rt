//! Places in a schema, and what a token does there.

use crate::{AttrText, DimText, SchemaText};
use afl_lexer::{List, Name, Span};

/// A name and its place.
#[derive(Drop)]
pub struct Label {
    pub name: Name,
    pub span: Span,
}

/// A bound of a dimension and its place, which includes the sign.
#[derive(Clone, Copy)]
pub struct Bound {
    pub value: i64,
    pub span: Span,
}

/// A chunk's length or an overlap, and its place.
#[derive(Clone, Copy)]
pub struct Count {
    pub value: u64,
    pub span: Span,
}

/// Where a reader stands among the attributes.
#[derive(Drop)]
pub enum AttrPlace {
    /// Before an attribute.
    First,
    /// Behind its name.
    Named(Label),
    /// Behind the colon.
    Typed(Label),
    /// Behind the type's word.
    Worded(AttrText),
    /// Behind `not`.
    Negated(AttrText),
    /// Behind `null`.
    Ended(AttrText),
}

/// Where a reader stands among the dimensions.
#[derive(Drop)]
pub enum DimPlace {
    /// Before a dimension.
    First,
    /// Behind its name.
    Named(Label),
    /// Behind the equals sign.
    Bounds(Label, BoundPlace),
    /// Behind the high bound.
    Numbers(Label, Bound, Bound, NumberPlace),
    /// Behind the overlap.
    Ended(DimText),
}

/// Where a reader stands between a dimension's `=` and its high bound.
#[derive(Clone, Copy)]
pub enum BoundPlace {
    /// Before the low bound.
    Low,
    /// Behind its `-`.
    LowMinus(Span),
    /// Behind the low bound.
    Lowered(Bound),
    /// Before the high bound.
    High(Bound),
    /// Behind its `-`.
    HighMinus(Bound, Span),
}

/// Where a reader stands behind a dimension's bounds.
#[derive(Clone, Copy)]
pub enum NumberPlace {
    /// Before the comma.
    Bounded,
    /// Before the chunk's length.
    Chunk,
    /// Behind it.
    Chunked(Count),
    /// Before the overlap.
    Overlap(Count),
}

/// What a token does in one of the attributes or dimensions.
#[derive(Drop)]
pub enum PartStep<P, T> {
    /// It leads to another place.
    On(P),
    /// It ends one, and another follows.
    Next(T),
    /// It ends the last one.
    Last(T),
    Unexpected,
}

/// What stands before the dimensions: the place of `<`, the attributes, and the place of `[`.
#[derive(Drop)]
pub struct Head {
    pub start: Span,
    pub attributes: List<AttrText>,
    pub bracket: Span,
}

/// Where a reader stands in a schema. `start` is the place of `<`.
#[derive(Drop)]
pub enum ShapeState {
    /// Before `<`.
    Start,
    Attributes {
        start: Span,
        attributes: List<AttrText>,
        place: AttrPlace,
    },
    /// Behind `>`.
    Between {
        start: Span,
        attributes: List<AttrText>,
    },
    Dimensions {
        head: Head,
        dimensions: List<DimText>,
        place: DimPlace,
    },
}

/// What a token does in a schema.
#[derive(Drop)]
pub enum ShapeStep {
    On(ShapeState),
    /// The token ends the schema, whose whole place is given.
    Whole(SchemaText, Span),
    Unexpected,
}
