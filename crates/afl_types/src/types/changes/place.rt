//! Where the name of a new array stands.
ghost use Rattle.std.specs.Prelude.{◌≡◌, ◌≤◌, max, min, length};
ghost use Rattle.afl_types.specs.Place.{behind_gap, created_place};

use afl_lexer::gap_end;
use cell_values::Span;

/// How many bytes `create` has.
const CREATE: usize = 6;

/// How many bytes `array` has.
const ARRAY: usize = 5;

/// The place behind the gap at a place.
fn behind_gap(text: &[u8], at: usize) -> usize
    ensures place { result ≡ behind_gap text.now at }
    ensures within { result ≤ max at (length text.now) }
{
    if at < text.len() {
        at + gap_end(&text[at..])
    } else {
        at
    }
}

/// A place in 32 bits: the greatest one where there is none.
fn place_of(at: usize) -> u32
    ensures { result ≡ min at 4294967295 }
{
    at.min(u32::MAX as usize) as u32
}

/// The place of the name in a statement that creates an array: it is the third token.
pub(crate) fn created_place(text: &[u8], statement: Span, name: &[u8]) -> Span
    ensures { result ≡ created_place text.now statement name.now }
{
    let array = behind_gap(text, statement.start as usize + CREATE);
    let start = behind_gap(text, array + ARRAY);
    let end = start.saturating_add(name.len());
    Span {
        start: place_of(start),
        end: place_of(end),
    }
}
