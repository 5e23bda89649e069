//! Texts in quotes.
ghost use Rattle.std.specs.Prelude.{◌≡◌, ◌+◌, ◌<◌, ◌≤◌, length, map, OnSome, IfSome, IfOk};
ghost use Rattle.afl_lexer.specs.Quoted.{items, byte_of};
ghost use Rattle.afl_lexer.specs.Scan.{item_len, quote_at, begins_badly, escape_at, content_reading, text_reading};

use crate::reading::Reading;
use crate::{LexKind, TokenKind};
use cell_values::{Bytes, List, Memory};
use std::alloc::Global;

/// How many bytes the item at the front has.
fn front_len(bytes: &[u8]) -> usize
    ensures len { result ≡ item_len bytes.now }
    ensures within { result ≤ length bytes.now }
    ensures some { 0 < length bytes.now → 0 < result }
{
    match bytes {
        [] => 0,
        [b'\\', _, ..] => 2,
        _ => 1,
    }
}

/// How many bytes stand before the quote that closes a text.
fn closing_quote(bytes: &[u8]) -> Option<usize>
    ensures place { result ≡ quote_at bytes.now }
    ensures within { IfSome result (λ at. at < length bytes.now) }
{
    let mut at = 0;
    while at < bytes.len() {
        if bytes[at] == b'\'' {
            return Some(at);
        }
        at += front_len(&bytes[at..]);
    }
    None
}

/// How many bytes the content of a text has, whose bytes between the quotes these are.
fn content_len(bytes: &[u8]) -> usize
    ensures len { result ≡ length (items bytes.now) }
{
    let mut count = 0;
    let mut at = 0;
    while at < bytes.len() {
        at += front_len(&bytes[at..]);
        count += 1;
    }
    count
}

fn is_bad_escape(bytes: &[u8]) -> bool
    ensures { result ≡ begins_badly bytes.now }
{
    match bytes {
        [b'\\', escaped, ..] => *escaped != b'\'' && *escaped != b'\\',
        _ => false,
    }
}

/// How many bytes stand before the first bad escape.
fn bad_escape(bytes: &[u8]) -> Option<usize>
    ensures place { result ≡ escape_at bytes.now }
    ensures within { IfSome result (λ at. at < length bytes.now) }
{
    let mut at = 0;
    while at < bytes.len() {
        if is_bad_escape(&bytes[at..]) {
            return Some(at);
        }
        at += front_len(&bytes[at..]);
    }
    None
}

#[tactic(auto, unfolding(crate::specs::Scan::content_reading))]
fn read_content(bytes: &[u8]) -> Reading
    ensures { result ≡ content_reading bytes.now }
{
    if content_len(bytes) > 65_535 {
        return Reading::Wrong(LexKind::TextTooLong, 0);
    }
    match bad_escape(bytes) {
        None => Reading::Found(TokenKind::Text, bytes.len() + 2),
        Some(at) => Reading::Wrong(LexKind::BadEscape, at + 1),
    }
}

/// The text whose bytes behind the first quote stand at the front.
#[tactic(auto, unfolding(crate::specs::Scan::text_reading))]
pub fn read_text(bytes: &[u8]) -> Reading
    ensures { result ≡ text_reading bytes.now }
{
    match closing_quote(bytes) {
        None => Reading::Wrong(LexKind::OpenText, 0),
        Some(at) => {
            let (content, _) = bytes.split_at(at);
            read_content(content)
        }
    }
}

/// The content of a text, whose bytes between the quotes these are.
pub fn content(alloc: Global, bytes: &[u8]) -> Result<Bytes, Memory>
    ensures { IfOk result (λ content. content ≡ map byte_of (items bytes.now)) }
{
    let mut content = List::with_capacity(alloc, bytes.len())?;
    let mut at = 0;
    while at < bytes.len() {
        let len = front_len(&bytes[at..]);
        content.push(bytes[at + len - 1])?;
        at += len;
    }
    Ok(content)
}
