//! What stands at the front of some bytes that begin with no gap.
ghost use Rattle.std.specs.Prelude.{◌≡◌, ◌+◌, ◌-◌, ◌^◌, ◌<◌, ◌≤◌, min, IsTrue, length, Some, if◌then◌else◌};
ghost use Rattle.std.specs.List.{list_all, prefix_len};
ghost use Rattle.std.specs.Str.{bytes_eq};
ghost use Rattle.std.specs.Str.Parse.{digits_value};
ghost use Rattle.cell_values.specs.Naming.{is_digit, is_word_byte, is_first_byte};
ghost use Rattle.afl_lexer.specs.Scan.{word_of, word_reading, number_reading, code_reading, double_symbol, single_symbol, symbol_reading, reading_of};

use crate::quoted::read_text;
use crate::{LexKind, Symbol, TokenKind, Word};

/// A token and how many bytes it has, or a fault and how many bytes stand before it.
#[derive(Clone, Copy)]
pub enum Reading {
    Found(TokenKind, usize),
    Wrong(LexKind, usize),
}

fn is_first(byte: u8) -> bool
    ensures { result ≡ is_first_byte byte }
{
    byte.is_ascii_alphabetic() || byte == b'_'
}

fn is_in_word(byte: u8) -> bool
    ensures { result ≡ is_word_byte byte }
{
    byte.is_ascii_alphanumeric() || byte == b'_'
}

fn is_a_digit(byte: u8) -> bool
    ensures { result ≡ is_digit byte }
{
    byte.is_ascii_digit()
}

fn word_len(bytes: &[u8]) -> usize
    ensures len { result ≡ prefix_len is_word_byte bytes.now }
    ensures within { result ≤ length bytes.now }
{
    bytes.iter().take_while(|byte| is_in_word(**byte)).count()
}

fn digits_len(bytes: &[u8]) -> usize
    ensures len { result ≡ prefix_len is_digit bytes.now }
    ensures within { result ≤ length bytes.now }
{
    bytes.iter().take_while(|byte| is_a_digit(**byte)).count()
}

/// What a word stands for, where the bytes are spelled so; else what they stand for otherwise.
pub fn if_spelled<T: Copy>(bytes: &[u8], word: &[u8], this: T, other: Option<T>) -> Option<T>
    ensures { result ≡ (if bytes_eq bytes.now word.now then Some this else other) }
{
    if bytes == word { Some(this) } else { other }
}

/// The reserved word that the bytes are.
fn reserved_word(bytes: &[u8]) -> Option<Word>
    ensures { result ≡ word_of bytes.now }
{
    let found = None;
    let found = if_spelled(bytes, b"array", Word::Array, found);
    let found = if_spelled(bytes, b"create", Word::Create, found);
    let found = if_spelled(bytes, b"as", Word::As, found);
    let found = if_spelled(bytes, b"false", Word::False, found);
    let found = if_spelled(bytes, b"true", Word::True, found);
    let found = if_spelled(bytes, b"null", Word::Null, found);
    let found = if_spelled(bytes, b"not", Word::Not, found);
    let found = if_spelled(bytes, b"or", Word::Or, found);
    let found = if_spelled(bytes, b"and", Word::And, found);
    found
}

#[tactic(auto, unfolding(crate::specs::Scan::word_reading))]
fn read_word(bytes: &[u8]) -> Reading
    ensures { result ≡ word_reading bytes.now }
{
    let len = word_len(bytes);
    if len > 64 {
        return Reading::Wrong(LexKind::NameTooLong, 0);
    }
    let (word, _) = bytes.split_at(len);
    let kind = match reserved_word(word) {
        None => TokenKind::Name,
        Some(word) => TokenKind::Word(word),
    };
    Reading::Found(kind, len)
}

/// The value of the digits, or the greatest `u64` where it is above that.
fn capped_value(digits: &[u8]) -> u64
    requires { IsTrue (list_all is_digit digits.now) }
    ensures { result ≡ min (digits_value 10 digits.now) (2 ^ 64 - 1) }
{
    let mut value = 0u64;
    for digit in digits {
        value = value
            .saturating_mul(10)
            .saturating_add(u64::from(*digit - b'0'));
    }
    value
}

#[tactic(auto, using(crate::proofs::Numbers::front_passes), unfolding(crate::specs::Scan::number_reading))]
fn read_number(bytes: &[u8]) -> Reading
    ensures { result ≡ number_reading bytes.now }
{
    let len = digits_len(bytes);
    let (digits, _) = bytes.split_at(len);
    let value = capped_value(digits);
    if value <= 9_223_372_036_854_775_807 {
        Reading::Found(TokenKind::Int(value as i64), len)
    } else {
        Reading::Wrong(LexKind::LiteralTooLarge, 0)
    }
}

/// The code whose digits stand at the front, behind its `?`.
#[tactic(auto, using(crate::proofs::Numbers::front_passes), unfolding(crate::specs::Scan::code_reading))]
fn read_code(bytes: &[u8]) -> Reading
    ensures { result ≡ code_reading bytes.now }
{
    let len = digits_len(bytes);
    if len == 0 {
        return Reading::Wrong(LexKind::UnknownCharacter, 0);
    }
    let (digits, _) = bytes.split_at(len);
    let value = capped_value(digits);
    if value <= 127 {
        Reading::Found(TokenKind::Code(value as u8), len + 1)
    } else {
        Reading::Wrong(LexKind::LiteralTooLarge, 0)
    }
}

fn symbol_of_two(first: u8, second: u8) -> Option<Symbol>
    ensures { result ≡ double_symbol first second }
{
    match (first, second) {
        (b'<', b'=') => Some(Symbol::AtMost),
        (b'>', b'=') => Some(Symbol::AtLeast),
        (b'<', b'>') => Some(Symbol::Differs),
        (b'!', b'=') => Some(Symbol::NotEqual),
        _ => None,
    }
}

fn symbol_of_one(byte: u8) -> Option<Symbol>
    ensures { result ≡ single_symbol byte }
{
    match byte {
        b'(' => Some(Symbol::LeftParen),
        b')' => Some(Symbol::RightParen),
        b'[' => Some(Symbol::LeftBracket),
        b']' => Some(Symbol::RightBracket),
        b'<' => Some(Symbol::Less),
        b'>' => Some(Symbol::More),
        b'=' => Some(Symbol::Equal),
        b',' => Some(Symbol::Comma),
        b':' => Some(Symbol::Colon),
        b'*' => Some(Symbol::Star),
        b'+' => Some(Symbol::Plus),
        b'-' => Some(Symbol::Minus),
        b'/' => Some(Symbol::Slash),
        b'%' => Some(Symbol::Percent),
        b'@' => Some(Symbol::At),
        _ => None,
    }
}

#[tactic(auto, unfolding(crate::specs::Scan::symbol_reading))]
fn read_symbol(bytes: &[u8]) -> Reading
    ensures { result ≡ symbol_reading bytes.now }
{
    let longer = match bytes {
        [first, second, ..] => symbol_of_two(*first, *second),
        _ => None,
    };
    if let Some(symbol) = longer {
        return Reading::Found(TokenKind::Symbol(symbol), 2);
    }
    match bytes {
        [] => Reading::Wrong(LexKind::UnknownCharacter, 0),
        [first, ..] => match symbol_of_one(*first) {
            None => Reading::Wrong(LexKind::UnknownCharacter, 0),
            Some(symbol) => Reading::Found(TokenKind::Symbol(symbol), 1),
        },
    }
}

/// The token at the front, or what is wrong with it.
#[tactic(auto, unfolding(crate::specs::Scan::reading_of))]
pub fn read(bytes: &[u8]) -> Reading
    ensures { result ≡ reading_of bytes.now }
{
    match bytes {
        [] => Reading::Wrong(LexKind::UnknownCharacter, 0),
        [first, behind @ ..] => {
            if is_first(*first) {
                read_word(bytes)
            } else if is_a_digit(*first) {
                read_number(bytes)
            } else if *first == b'?' {
                read_code(behind)
            } else if *first == b'\'' {
                read_text(behind)
            } else {
                read_symbol(bytes)
            }
        }
    }
}
