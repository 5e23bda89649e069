//! The reader of schemas, one step a token.
ghost use Rattle.std.specs.Prelude.{◌≡◌, ℕ, ◌≤ℤ◌, pos, neg_ℤ, unsigned_abs, List, [], ◌∷◌, ◌++◌, IfOk};
ghost use Rattle.afl_lexer.specs.Lexemes.{bytes_of, lexeme_of, what_of, a_symbol};
ghost use Rattle.afl_lexer.specs.Tokens.{IsTokenOf};
ghost use Rattle.schema_grammar.specs.Spelling.{across};
ghost use Rattle.schema_grammar.specs.Inner.Reading.{attribute, between_turn, bound, count, label, start_turn};
ghost use Rattle.schema_grammar.specs.Inner.Reading.{whole_schema, attr_end, attr_goes, attr_step, attr_word, bound_step};
ghost use Rattle.schema_grammar.specs.Inner.Reading.{dim_goes, dim_step, dimension, number_step, shape_turn};
ghost use Rattle.schema_grammar.specs.Inner.Unsigned.{IsUnsigned};

use crate::shape_text::UNBOUNDED;
use crate::state::{
    AttrPlace, Bound, BoundPlace, Count, DimPlace, Head, Label, NumberPlace, PartStep,
};
use crate::{AttrText, DimText, SchemaText, ShapeState, ShapeStep};
use afl_lexer::{List, Memory, Name, Span, Symbol, Token, TokenKind, Word, name_value};
use std::alloc::Global;

/// Nothing goes on so, and what was read of the part is let go.
fn unexpected<X: Drop, P, T>(part: X) -> PartStep<P, T>
    ensures { result ≡ PartStep.Unexpected }
{
    drop(part);
    PartStep::Unexpected
}

/// The name at a token, with its place.
fn label_at(alloc: Global, text: &[u8], token: Token) -> Result<Label, Memory>
    requires token { IsTokenOf text.now token }
    requires name { token.kind ≡ TokenKind.Name }
    ensures { IfOk result (λ name. name ≡ label (bytes_of text.now token.span) token.span) }
{
    Ok(Label {
        name: name_value(alloc, text, &token)?,
        span: token.span,
    })
}

/// From the start of the first to the end of the second.
fn across(first: Span, second: Span) -> Span
    ensures { result ≡ across first second }
{
    Span {
        start: first.start,
        end: second.end,
    }
}

impl Label {
    /// The attribute of this name with the type's word behind it.
    fn with_word(self, word: Name, word_span: Span) -> AttrText
        ensures { result ≡ attribute self word word_span }
    {
        let Label { name, span } = self;
        AttrText {
            name,
            name_span: span,
            word,
            word_span,
            nullable: true,
        }
    }

    /// The dimension of this name with the numbers behind it.
    fn with_numbers(self, lo: Bound, hi: Bound, chunk: Count, overlap: Count) -> DimText
        ensures { result ≡ dimension self lo hi chunk overlap.value overlap.span }
    {
        let Label { name, span } = self;
        DimText {
            name,
            name_span: span,
            lo: lo.value,
            lo_span: lo.span,
            hi: hi.value,
            hi_span: hi.span,
            chunk: chunk.value,
            chunk_span: chunk.span,
            overlap: overlap.value,
            overlap_span: overlap.span,
        }
    }
}

/// At the symbol behind an attribute.
fn end_attribute(attribute: AttrText, symbol: Symbol) -> PartStep<AttrPlace, AttrText>
    ensures { result ≡ attr_end attribute (a_symbol symbol) }
{
    match symbol {
        Symbol::Comma => PartStep::Next(attribute),
        Symbol::More => PartStep::Last(attribute),
        _ => unexpected(attribute),
    }
}

/// Behind a type's word.
fn read_null(attribute: AttrText, kind: TokenKind) -> PartStep<AttrPlace, AttrText>
    ensures { (bytes : List ℕ) → result ≡ attr_word attribute (what_of kind bytes) }
{
    match kind {
        TokenKind::Word(Word::Not) => {
            let attribute = AttrText {
                nullable: false,
                ..attribute
            };
            PartStep::On(AttrPlace::Negated(attribute))
        }
        TokenKind::Word(Word::Null) => PartStep::On(AttrPlace::Ended(attribute)),
        TokenKind::Symbol(symbol) => end_attribute(attribute, symbol),
        _ => unexpected(attribute),
    }
}

/// Before an attribute.
fn read_attribute_name(
    alloc: Global,
    text: &[u8],
    token: Token,
) -> Result<PartStep<AttrPlace, AttrText>, Memory>
    requires { IsTokenOf text.now token }
    ensures { IfOk result (λ step. step ≡ attr_step AttrPlace.First token.span (lexeme_of text.now token).what) }
{
    match token.kind {
        TokenKind::Name => {
            let label = label_at(alloc, text, token)?;
            Ok(PartStep::On(AttrPlace::Named(label)))
        }
        _ => Ok(PartStep::Unexpected),
    }
}

/// Behind an attribute's name.
fn read_colon(label: Label, token: Token) -> PartStep<AttrPlace, AttrText>
    ensures { (bytes : List ℕ) → result ≡ attr_step (AttrPlace.Named label) token.span (what_of token.kind bytes) }
{
    match token.kind {
        TokenKind::Symbol(Symbol::Colon) => PartStep::On(AttrPlace::Typed(label)),
        _ => unexpected(label),
    }
}

/// Behind an attribute's colon.
fn read_type(
    alloc: Global,
    text: &[u8],
    label: Label,
    token: Token,
) -> Result<PartStep<AttrPlace, AttrText>, Memory>
    requires { IsTokenOf text.now token }
    ensures { IfOk result (λ step. step ≡ attr_step (AttrPlace.Typed label) token.span (lexeme_of text.now token).what) }
{
    match token.kind {
        TokenKind::Name => match name_value(alloc, text, &token) {
            Ok(word) => {
                let attribute = label.with_word(word, token.span);
                Ok(PartStep::On(AttrPlace::Worded(attribute)))
            }
            Err(Memory) => {
                drop(label);
                Err(Memory)
            }
        },
        _ => Ok(unexpected(label)),
    }
}

/// Behind an attribute's `not`.
fn read_negated(attribute: AttrText, token: Token) -> PartStep<AttrPlace, AttrText>
    ensures { (bytes : List ℕ) → result ≡ attr_step (AttrPlace.Negated attribute) token.span (what_of token.kind bytes) }
{
    match token.kind {
        TokenKind::Word(Word::Null) => PartStep::On(AttrPlace::Ended(attribute)),
        _ => unexpected(attribute),
    }
}

/// Behind an attribute's `null`.
fn read_ended(attribute: AttrText, token: Token) -> PartStep<AttrPlace, AttrText>
    ensures { (bytes : List ℕ) → result ≡ attr_step (AttrPlace.Ended attribute) token.span (what_of token.kind bytes) }
{
    match token.kind {
        TokenKind::Symbol(symbol) => end_attribute(attribute, symbol),
        _ => unexpected(attribute),
    }
}

/// Reads one token among the attributes.
fn read_attribute(
    alloc: Global,
    text: &[u8],
    place: AttrPlace,
    token: Token,
) -> Result<PartStep<AttrPlace, AttrText>, Memory>
    requires { IsTokenOf text.now token }
    ensures { IfOk result (λ step. step ≡ attr_step place token.span (lexeme_of text.now token).what) }
{
    match place {
        AttrPlace::First => read_attribute_name(alloc, text, token),
        AttrPlace::Named(label) => Ok(read_colon(label, token)),
        AttrPlace::Typed(label) => read_type(alloc, text, label, token),
        AttrPlace::Worded(attribute) => Ok(read_null(attribute, token.kind)),
        AttrPlace::Negated(attribute) => Ok(read_negated(attribute, token)),
        AttrPlace::Ended(attribute) => Ok(read_ended(attribute, token)),
    }
}

/// A bound behind its sign.
fn negated(value: i64, minus: Span, span: Span) -> Bound
    requires { pos 0 ≤ℤ value }
    ensures { result ≡ bound (neg_ℤ value) (across minus span) }
{
    Bound {
        value: -value,
        span: across(minus, span),
    }
}

/// Before the low bound.
#[tactic(auto, using(crate::proofs::Numbers::low_read))]
fn read_low(label: Label, token: Token) -> PartStep<DimPlace, DimText>
    requires { IsUnsigned token.kind }
    ensures { (bytes : List ℕ) → result ≡ bound_step label BoundPlace.Low token.span (what_of token.kind bytes) }
{
    let span = token.span;
    match token.kind {
        TokenKind::Symbol(Symbol::Minus) => {
            PartStep::On(DimPlace::Bounds(label, BoundPlace::LowMinus(span)))
        }
        TokenKind::Int(value) => {
            let lo = Bound { value, span };
            PartStep::On(DimPlace::Bounds(label, BoundPlace::Lowered(lo)))
        }
        _ => unexpected(label),
    }
}

/// Before the high bound.
#[tactic(auto, using(crate::proofs::Numbers::high_read))]
fn read_high(label: Label, lo: Bound, token: Token) -> PartStep<DimPlace, DimText>
    requires { IsUnsigned token.kind }
    ensures { (bytes : List ℕ) → result ≡ bound_step label (BoundPlace.High lo) token.span (what_of token.kind bytes) }
{
    let span = token.span;
    match token.kind {
        TokenKind::Symbol(Symbol::Minus) => {
            PartStep::On(DimPlace::Bounds(label, BoundPlace::HighMinus(lo, span)))
        }
        TokenKind::Symbol(Symbol::Star) => {
            let value = UNBOUNDED;
            let hi = Bound { value, span };
            PartStep::On(DimPlace::Numbers(label, lo, hi, NumberPlace::Bounded))
        }
        TokenKind::Int(value) => {
            let hi = Bound { value, span };
            PartStep::On(DimPlace::Numbers(label, lo, hi, NumberPlace::Bounded))
        }
        _ => unexpected(label),
    }
}

/// Reads one token of a dimension's bounds.
#[tactic(auto, using(crate::proofs::Numbers::low_minus_read, crate::proofs::Numbers::high_minus_read))]
fn read_bound(label: Label, place: BoundPlace, token: Token) -> PartStep<DimPlace, DimText>
    requires { IsUnsigned token.kind }
    ensures { (bytes : List ℕ) → result ≡ bound_step label place token.span (what_of token.kind bytes) }
{
    match place {
        BoundPlace::Low => read_low(label, token),
        BoundPlace::LowMinus(minus) => match token.kind {
            TokenKind::Int(value) => {
                let lo = negated(value, minus, token.span);
                PartStep::On(DimPlace::Bounds(label, BoundPlace::Lowered(lo)))
            }
            _ => unexpected(label),
        },
        BoundPlace::Lowered(lo) => match token.kind {
            TokenKind::Symbol(Symbol::Colon) => {
                PartStep::On(DimPlace::Bounds(label, BoundPlace::High(lo)))
            }
            _ => unexpected(label),
        },
        BoundPlace::High(lo) => read_high(label, lo, token),
        BoundPlace::HighMinus(lo, minus) => match token.kind {
            TokenKind::Int(value) => {
                let hi = negated(value, minus, token.span);
                PartStep::On(DimPlace::Numbers(label, lo, hi, NumberPlace::Bounded))
            }
            _ => unexpected(label),
        },
    }
}

/// A chunk's length or an overlap.
fn count_of(value: i64, span: Span) -> Count
    ensures { result ≡ count (unsigned_abs value) span }
{
    Count {
        value: value.unsigned_abs(),
        span,
    }
}

/// Reads one token behind a dimension's bounds.
#[tactic(auto, using(crate::proofs::Numbers::chunk_read, crate::proofs::Numbers::overlap_read))]
fn read_number(
    label: Label,
    lo: Bound,
    hi: Bound,
    place: NumberPlace,
    token: Token,
) -> PartStep<DimPlace, DimText>
    requires { IsUnsigned token.kind }
    ensures { (bytes : List ℕ) → result ≡ number_step label lo hi place token.span (what_of token.kind bytes) }
{
    match place {
        NumberPlace::Bounded => match token.kind {
            TokenKind::Symbol(Symbol::Comma) => {
                PartStep::On(DimPlace::Numbers(label, lo, hi, NumberPlace::Chunk))
            }
            _ => unexpected(label),
        },
        NumberPlace::Chunk => match token.kind {
            TokenKind::Int(value) => {
                let chunk = count_of(value, token.span);
                PartStep::On(DimPlace::Numbers(label, lo, hi, NumberPlace::Chunked(chunk)))
            }
            _ => unexpected(label),
        },
        NumberPlace::Chunked(chunk) => match token.kind {
            TokenKind::Symbol(Symbol::Comma) => {
                PartStep::On(DimPlace::Numbers(label, lo, hi, NumberPlace::Overlap(chunk)))
            }
            _ => unexpected(label),
        },
        NumberPlace::Overlap(chunk) => match token.kind {
            TokenKind::Int(value) => {
                let overlap = count_of(value, token.span);
                PartStep::On(DimPlace::Ended(label.with_numbers(lo, hi, chunk, overlap)))
            }
            _ => unexpected(label),
        },
    }
}

/// Before a dimension.
fn read_dimension_name(
    alloc: Global,
    text: &[u8],
    token: Token,
) -> Result<PartStep<DimPlace, DimText>, Memory>
    requires { IsTokenOf text.now token }
    ensures { IfOk result (λ step. step ≡ dim_step DimPlace.First token.span (lexeme_of text.now token).what) }
{
    match token.kind {
        TokenKind::Name => {
            let label = label_at(alloc, text, token)?;
            Ok(PartStep::On(DimPlace::Named(label)))
        }
        _ => Ok(PartStep::Unexpected),
    }
}

/// Behind a dimension's name.
fn read_equal(label: Label, token: Token) -> PartStep<DimPlace, DimText>
    ensures { (bytes : List ℕ) → result ≡ dim_step (DimPlace.Named label) token.span (what_of token.kind bytes) }
{
    match token.kind {
        TokenKind::Symbol(Symbol::Equal) => PartStep::On(DimPlace::Bounds(label, BoundPlace::Low)),
        _ => unexpected(label),
    }
}

/// Behind a dimension's overlap.
fn end_dimension(dimension: DimText, token: Token) -> PartStep<DimPlace, DimText>
    ensures { (bytes : List ℕ) → result ≡ dim_step (DimPlace.Ended dimension) token.span (what_of token.kind bytes) }
{
    match token.kind {
        TokenKind::Symbol(Symbol::Comma) => PartStep::Next(dimension),
        TokenKind::Symbol(Symbol::RightBracket) => PartStep::Last(dimension),
        _ => unexpected(dimension),
    }
}

/// Reads one token among the dimensions.
#[tactic(auto, using(crate::proofs::Numbers::unsigned))]
fn read_dimension(
    alloc: Global,
    text: &[u8],
    place: DimPlace,
    token: Token,
) -> Result<PartStep<DimPlace, DimText>, Memory>
    requires { IsTokenOf text.now token }
    ensures { IfOk result (λ step. step ≡ dim_step place token.span (lexeme_of text.now token).what) }
{
    match place {
        DimPlace::First => read_dimension_name(alloc, text, token),
        DimPlace::Named(label) => Ok(read_equal(label, token)),
        DimPlace::Bounds(label, place) => Ok(read_bound(label, place, token)),
        DimPlace::Numbers(label, lo, hi, place) => Ok(read_number(label, lo, hi, place, token)),
        DimPlace::Ended(dimension) => Ok(end_dimension(dimension, token)),
    }
}

/// The parts and one more.
fn with_part<T: Drop>(parts: List<T>, part: T) -> Result<List<T>, Memory>
    ensures { IfOk result (λ more. more ≡ parts ++ part ∷ []) }
{
    let mut parts = parts;
    match parts.push(part) {
        Ok(()) => Ok(parts),
        Err(Memory) => {
            drop(parts);
            Err(Memory)
        }
    }
}

/// Where the attributes stand after a step.
fn after_attribute(
    start: Span,
    attributes: List<AttrText>,
    step: PartStep<AttrPlace, AttrText>,
) -> Result<ShapeStep, Memory>
    ensures { IfOk result (λ next. next ≡ attr_goes start attributes step) }
{
    match step {
        PartStep::On(place) => Ok(ShapeStep::On(ShapeState::Attributes {
            start,
            attributes,
            place,
        })),
        PartStep::Next(attribute) => {
            let attributes = with_part(attributes, attribute)?;
            let place = AttrPlace::First;
            Ok(ShapeStep::On(ShapeState::Attributes {
                start,
                attributes,
                place,
            }))
        }
        PartStep::Last(attribute) => {
            let attributes = with_part(attributes, attribute)?;
            Ok(ShapeStep::On(ShapeState::Between { start, attributes }))
        }
        PartStep::Unexpected => {
            drop(attributes);
            Ok(ShapeStep::Unexpected)
        }
    }
}

/// The schema that ends at a `]` of this place.
fn whole(head: Head, dimensions: List<DimText>, end: Span) -> ShapeStep
    ensures { result ≡ ShapeStep.Whole (whole_schema head.attributes dimensions (across head.bracket end)) (across head.start end) }
{
    let Head {
        start,
        attributes,
        bracket,
    } = head;
    let brackets = across(bracket, end);
    let schema = SchemaText {
        attributes,
        dimensions,
        brackets,
    };
    ShapeStep::Whole(schema, across(start, end))
}

/// Where the dimensions stand after a step at a token of this place.
fn after_dimension(
    head: Head,
    dimensions: List<DimText>,
    step: PartStep<DimPlace, DimText>,
    span: Span,
) -> Result<ShapeStep, Memory>
    ensures { IfOk result (λ next. next ≡ dim_goes head dimensions step span) }
{
    match step {
        PartStep::On(place) => Ok(ShapeStep::On(ShapeState::Dimensions {
            head,
            dimensions,
            place,
        })),
        PartStep::Next(dimension) => match with_part(dimensions, dimension) {
            Ok(dimensions) => {
                let place = DimPlace::First;
                Ok(ShapeStep::On(ShapeState::Dimensions {
                    head,
                    dimensions,
                    place,
                }))
            }
            Err(Memory) => {
                drop(head);
                Err(Memory)
            }
        },
        PartStep::Last(dimension) => match with_part(dimensions, dimension) {
            Ok(dimensions) => Ok(whole(head, dimensions, span)),
            Err(Memory) => {
                drop(head);
                Err(Memory)
            }
        },
        PartStep::Unexpected => {
            drop(dimensions);
            drop(head);
            Ok(ShapeStep::Unexpected)
        }
    }
}

/// Before `<`.
fn open_attributes(alloc: Global, token: Token) -> ShapeStep
    ensures { (bytes : List ℕ) → result ≡ start_turn token.span (what_of token.kind bytes) }
{
    match token.kind {
        TokenKind::Symbol(Symbol::Less) => ShapeStep::On(ShapeState::Attributes {
            start: token.span,
            attributes: List::new(alloc),
            place: AttrPlace::First,
        }),
        _ => ShapeStep::Unexpected,
    }
}

/// Before `[`.
fn open_dimensions(
    alloc: Global,
    start: Span,
    attributes: List<AttrText>,
    token: Token,
) -> ShapeStep
    ensures { (bytes : List ℕ) → result ≡ between_turn start attributes token.span (what_of token.kind bytes) }
{
    match token.kind {
        TokenKind::Symbol(Symbol::LeftBracket) => ShapeStep::On(ShapeState::Dimensions {
            head: Head {
                start,
                attributes,
                bracket: token.span,
            },
            dimensions: List::new(alloc),
            place: DimPlace::First,
        }),
        _ => {
            drop(attributes);
            ShapeStep::Unexpected
        }
    }
}

/// Reads one token of a schema. Called token after token, as `shape` does, it comes to the schema's syntax tree.
pub fn read_shape(
    alloc: Global,
    text: &[u8],
    state: ShapeState,
    token: Token,
) -> Result<ShapeStep, Memory>
    requires { IsTokenOf text.now token }
    ensures { IfOk result (λ step. step ≡ shape_turn state (lexeme_of text.now token)) }
{
    match state {
        ShapeState::Start => Ok(open_attributes(alloc, token)),
        ShapeState::Attributes {
            start,
            attributes,
            place,
        } => {
            match read_attribute(alloc, text, place, token) {
                Ok(step) => after_attribute(start, attributes, step),
                Err(Memory) => {
                    drop(attributes);
                    Err(Memory)
                }
            }
        }
        ShapeState::Between { start, attributes } => {
            Ok(open_dimensions(alloc, start, attributes, token))
        }
        ShapeState::Dimensions {
            head,
            dimensions,
            place,
        } => {
            match read_dimension(alloc, text, place, token) {
                Ok(step) => after_dimension(head, dimensions, step, token.span),
                Err(Memory) => {
                    drop(dimensions);
                    drop(head);
                    Err(Memory)
                }
            }
        }
    }
}
