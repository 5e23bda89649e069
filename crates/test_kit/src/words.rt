//! The values that words stand for.

use cell_values::{Bytes, Cell, Code, Coord, Datum, FaultKind, List, Memory};
use std::alloc::Global;

/// The words of a line.
pub fn words_of<'a>(alloc: Global, line: &'a str) -> Result<Vec<&'a str>, Memory> {
    Ok(line.split_whitespace().collect(alloc)?)
}

/// The number of a word; 0 where it is none.
pub fn number_in(word: &str) -> i64 {
    word.parse::<i64>().unwrap_or(0)
}

/// The fault of a word.
pub fn fault_of(word: &str) -> Option<FaultKind> {
    match word {
        "overflow" => Some(FaultKind::Overflow),
        "divide-by-zero" => Some(FaultKind::DivideByZero),
        "out-of-bounds" => Some(FaultKind::OutOfBounds),
        "collision" => Some(FaultKind::Collision),
        "null-in-not-null" => Some(FaultKind::NullInNotNull),
        _ => None,
    }
}

fn null_of(digits: &str) -> Datum {
    match Code::new(digits.parse::<u8>().unwrap_or(0)) {
        Some(code) => Datum::Missing(code),
        None => Datum::Null,
    }
}

fn number_or_text(alloc: Global, word: &str) -> Result<Datum, Memory> {
    if let Ok(number) = word.parse::<i64>() {
        return Ok(Datum::Int(number));
    }
    match word.strip_prefix('?') {
        Some(digits) => Ok(null_of(digits)),
        None => Ok(Datum::Text(Bytes::from_slice(alloc, word.as_bytes())?)),
    }
}

/// The value of a word: a number, `true`, `false`, `null`, `?7`, a fault as `overflow`, else a text.
pub fn datum_of(alloc: Global, word: &str) -> Result<Datum, Memory> {
    if let Some(kind) = fault_of(word) {
        return Ok(Datum::Bad(kind));
    }
    match word {
        "null" => Ok(Datum::Null),
        "true" => Ok(Datum::Truth(true)),
        "false" => Ok(Datum::Truth(false)),
        word => number_or_text(alloc, word),
    }
}

/// The coordinate of a word such as `(-1,2)`, of at most six numbers.
pub fn coord_in(word: &str) -> Coord {
    let mut at = Coord::new();
    let numbers = word.strip_prefix('(').unwrap_or(word);
    for number in numbers.strip_suffix(')').unwrap_or(numbers).split(',') {
        if at.len() < 6 {
            at.push(number_in(number));
        }
    }
    at
}

/// The fault in a word such as `doubt(overflow)`.
fn doubt_in(word: &str) -> Option<FaultKind> {
    fault_of(word.strip_prefix("doubt(")?.strip_suffix(')')?)
}

/// The cell of a word such as `doubt(overflow)`; else a cell with the values of some words and then the value of the word.
pub fn cell_of(alloc: Global, front: &[&str], word: &str) -> Result<Cell, Memory> {
    if let Some(kind) = doubt_in(word) {
        return Ok(Cell::Doubt(kind));
    }
    let mut values = List::new(alloc);
    for other in front {
        values.push(datum_of(alloc, other)?)?;
    }
    values.push(datum_of(alloc, word)?)?;
    Ok(Cell::Full(values))
}

/// The number before the `:` of a word, and the word behind it.
pub fn place_in(word: &str) -> (i64, &str) {
    match word.split_once(':') {
        Some((place, held)) => (number_in(place), held),
        None => (0, word),
    }
}
