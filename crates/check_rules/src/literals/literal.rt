//! Literals: the elements of an array of one dimension, as a text spells them.
ghost use Rattle.std.specs.Prelude.{◌≡◌, false, ◌≤◌, length, All, IfOk};
ghost use Rattle.cell_values.specs.declared.datum.Datum.{Datum};
ghost use Rattle.check_rules.specs.declared.literals.literal.Place.{Place};
ghost use Rattle.afl_lexer.specs.Lexemes.{lexeme_of};
ghost use Rattle.afl_lexer.specs.Tokens.{IsTokenOf};
ghost use Rattle.check_rules.specs.Literals.{mark_of, whats};
ghost use Rattle.check_rules.specs.Inner.Reader.{is_number, with_element, with_bare, with_value, signed_value};
ghost use Rattle.check_rules.specs.Inner.Reader.{before_element, before_value, behind_value};
ghost use Rattle.check_rules.specs.Inner.Reader.{behind_element, turn_at, turn, finished, spelled, elements_of};

use afl_lexer::{LexFault, Symbol, Token, TokenKind, Word, text_value, tokens};
use cell_values::{Code, Datum, List, Memory, neg};
use std::alloc::Global;

/// The most bytes that a text has.
const MAX_TEXT: usize = 65535;

/// What a token is in a literal.
#[derive(Drop)]
pub(crate) enum Mark {
    Value(Datum),
    Symbol(Symbol),
    /// It has no place there.
    Other,
}

/// Where a reader stands in a literal.
#[derive(Drop)]
pub(crate) enum Place {
    /// Before `[`.
    Start,
    /// Behind `[`.
    First,
    /// Behind a `,` between elements.
    Next,
    /// Behind the `-` of an element without brackets.
    Negative,
    /// Behind `(`.
    Opened,
    /// Behind these values of an element, and a `,`.
    Further(List<Datum>),
    /// Behind these values of an element, and the `-` of another.
    Signed(List<Datum>),
    /// Behind these values of an element.
    Valued(List<Datum>),
    /// Behind an element.
    Ended,
    /// Behind `]`.
    Closed,
}

/// What is read of a literal: the values of each whole element, and the place behind them.
#[derive(Drop)]
pub(crate) struct Begun {
    pub(crate) elements: List<List<Datum>>,
    pub(crate) place: Place,
}

/// What a token of the text is in a literal.
fn mark_of(alloc: Global, text: &[u8], token: Token) -> Result<Mark, Memory>
    requires { IsTokenOf text.now token }
    ensures { IfOk result (λ mark. mark ≡ mark_of (lexeme_of text.now token).what) }
{
    let value = match token.kind {
        TokenKind::Int(number) => Datum::Int(number),
        TokenKind::Text => Datum::Text(text_value(alloc, text, &token)?),
        TokenKind::Code(number) => match Code::new(number) {
            Some(code) => Datum::Missing(code),
            None => Datum::Null,
        },
        TokenKind::Word(Word::Null) => Datum::Null,
        TokenKind::Word(Word::True) => Datum::Truth(true),
        TokenKind::Word(Word::False) => Datum::Truth(false),
        TokenKind::Symbol(symbol) => return Ok(Mark::Symbol(symbol)),
        TokenKind::Name | TokenKind::Word(_) => return Ok(Mark::Other),
    };
    Ok(Mark::Value(value))
}

fn is_number(value: &Datum) -> bool
    ensures { result ≡ is_number value.now }
{
    matches!(value, Datum::Int(_))
}

/// With one more element.
fn with_element(elements: List<List<Datum>>, values: List<Datum>) -> Result<Option<Begun>, Memory>
    ensures { IfOk result (λ next. next ≡ with_element elements values) }
{
    let mut elements = elements;
    elements.push(values)?;
    Ok(Some(Begun {
        elements,
        place: Place::Ended,
    }))
}

/// With one more element of one value.
fn with_bare(elements: List<List<Datum>>, value: Datum) -> Result<Option<Begun>, Memory>
    ensures { IfOk result (λ next. next ≡ with_bare elements value) }
{
    let mut values = elements.another();
    values.push(value)?;
    with_element(elements, values)
}

/// With one more value of the element that is open.
fn with_value(
    elements: List<List<Datum>>,
    values: List<Datum>,
    value: Datum,
) -> Result<Option<Begun>, Memory>
    ensures { IfOk result (λ next. next ≡ with_value elements values value) }
{
    let mut values = values;
    values.push(value)?;
    Ok(Some(Begun {
        elements,
        place: Place::Valued(values),
    }))
}

/// Where an element is due.
fn before_element(
    is_bare: bool,
    elements: List<List<Datum>>,
    mark: Mark,
) -> Result<Option<Begun>, Memory>
    ensures { IfOk result (λ next. next ≡ before_element is_bare elements mark) }
{
    let place = match mark {
        Mark::Symbol(Symbol::LeftParen) => Place::Opened,
        Mark::Symbol(Symbol::Minus) if is_bare => Place::Negative,
        Mark::Value(value) if is_bare => return with_bare(elements, value),
        _ => return Ok(None),
    };
    Ok(Some(Begun { elements, place }))
}

/// Where a value of an element is due.
fn before_value(
    elements: List<List<Datum>>,
    values: List<Datum>,
    mark: Mark,
) -> Result<Option<Begun>, Memory>
    ensures { IfOk result (λ next. next ≡ before_value elements values mark) }
{
    match mark {
        Mark::Symbol(Symbol::Minus) => Ok(Some(Begun {
            elements,
            place: Place::Signed(values),
        })),
        Mark::Value(value) => with_value(elements, values, value),
        _ => Ok(None),
    }
}

/// Behind a value of an element.
fn behind_value(
    elements: List<List<Datum>>,
    values: List<Datum>,
    mark: Mark,
) -> Result<Option<Begun>, Memory>
    ensures { IfOk result (λ next. next ≡ behind_value elements values mark) }
{
    match mark {
        Mark::Symbol(Symbol::Comma) => Ok(Some(Begun {
            elements,
            place: Place::Further(values),
        })),
        Mark::Symbol(Symbol::RightParen) => with_element(elements, values),
        _ => Ok(None),
    }
}

/// Behind an element.
fn behind_element(elements: List<List<Datum>>, mark: Mark) -> Option<Begun>
    ensures { result ≡ behind_element elements mark }
{
    let place = match mark {
        Mark::Symbol(Symbol::Comma) => Place::Next,
        Mark::Symbol(Symbol::RightBracket) => Place::Closed,
        _ => return None,
    };
    Some(Begun { elements, place })
}

/// At the start.
fn behind_start(elements: List<List<Datum>>, mark: Mark) -> Option<Begun>
    ensures { result ≡ turn_at false elements Place.Start mark }
{
    match mark {
        Mark::Symbol(Symbol::LeftBracket) => Some(Begun {
            elements,
            place: Place::First,
        }),
        _ => None,
    }
}

/// Behind the bracket that begins a literal.
fn behind_bracket(
    is_bare: bool,
    elements: List<List<Datum>>,
    mark: Mark,
) -> Result<Option<Begun>, Memory>
    ensures { IfOk result (λ next. next ≡ turn_at is_bare elements Place.First mark) }
{
    match mark {
        Mark::Symbol(Symbol::RightBracket) => Ok(Some(Begun {
            elements,
            place: Place::Closed,
        })),
        _ => before_element(is_bare, elements, mark),
    }
}

/// Behind the bracket that opens an element.
fn behind_opened(elements: List<List<Datum>>, mark: Mark) -> Result<Option<Begun>, Memory>
    ensures { IfOk result (λ next. next ≡ turn_at false elements Place.Opened mark) }
{
    let values = elements.another();
    match mark {
        Mark::Symbol(Symbol::RightParen) => with_element(elements, values),
        _ => before_value(elements, values, mark),
    }
}

/// The number with its sign turned, where the mark is one.
fn signed_value(mark: &Mark) -> Option<Datum>
    ensures { result ≡ signed_value mark.now }
{
    match mark {
        Mark::Value(value) if is_number(value) => Some(neg(value)),
        _ => None,
    }
}

impl Begun {
    /// With one more mark, or none where it can't stand there.
    fn read(self, is_bare: bool, mark: Mark) -> Result<Option<Begun>, Memory>
        ensures { IfOk result (λ next. next ≡ turn is_bare self mark) }
    {
        let Begun { elements, place } = self;
        match place {
            Place::Start => Ok(behind_start(elements, mark)),
            Place::First => behind_bracket(is_bare, elements, mark),
            Place::Next => before_element(is_bare, elements, mark),
            Place::Negative => match signed_value(&mark) {
                Some(value) => with_bare(elements, value),
                None => Ok(None),
            },
            Place::Opened => behind_opened(elements, mark),
            Place::Further(values) => before_value(elements, values, mark),
            Place::Signed(values) => match signed_value(&mark) {
                Some(value) => with_value(elements, values, value),
                None => Ok(None),
            },
            Place::Valued(values) => behind_value(elements, values, mark),
            Place::Ended => Ok(behind_element(elements, mark)),
            Place::Closed => Ok(None),
        }
    }

    /// The elements, where the literal is whole.
    fn finish(self) -> Option<List<List<Datum>>>
        ensures { result ≡ finished self.elements self.place }
    {
        let Begun { elements, place } = self;
        match place {
            Place::Closed => Some(elements),
            _ => None,
        }
    }
}

/// The elements that tokens spell.
#[tactic(auto, using(crate::proofs::ReadLemmas::next_token))]
fn read_tokens(
    alloc: Global,
    text: &[u8],
    is_bare: bool,
    tokens: &[Token],
) -> Result<Option<List<List<Datum>>>, Memory>
    requires { All (IsTokenOf text.now) tokens.now }
    ensures { IfOk result (λ elements. elements ≡ spelled is_bare (whats text.now tokens.now)) }
{
    let mut begun = Begun {
        elements: List::new(alloc),
        place: Place::Start,
    };
    for token in tokens {
        let mark = mark_of(alloc, text, *token)?;
        match begun.read(is_bare, mark)? {
            Some(next) => begun = next,
            None => return Ok(None),
        }
    }
    Ok(begun.finish())
}

/// The elements that a text spells, each the list of its values. None where it spells no literal; `is_bare` says
/// whether an element of one value may stand without brackets.
#[tactic(auto, using(crate::proofs::LexedLemmas::tokens_are, crate::proofs::LexedLemmas::tokens_stop))]
pub(crate) fn elements_of(
    alloc: Global,
    is_bare: bool,
    text: &[u8],
) -> Result<Option<List<List<Datum>>>, Memory>
    ensures { IfOk result (λ elements. elements ≡ elements_of is_bare text.now) }
{
    if text.len() > MAX_TEXT {
        return Ok(None);
    }
    match tokens(alloc, text) {
        Ok(tokens) => read_tokens(alloc, text, is_bare, tokens.as_slice()),
        Err(LexFault::At { .. }) => Ok(None),
        Err(LexFault::Memory) => Err(Memory),
    }
}
