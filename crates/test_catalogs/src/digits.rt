//! The bytes that words stand for.

use cell_values::{Bytes, Memory};
use std::alloc::Global;
use std::str::from_utf8;

/// The first word of a text, and what stands behind it.
pub(crate) fn front_of(text: &str) -> (&str, &str) {
    text.split_once(' ').unwrap_or((text, ""))
}

fn number_in(word: &str) -> usize {
    word.parse::<usize>().unwrap_or(0)
}

/// So many pages of zeros.
pub(crate) fn zeros(alloc: Global, count: &str) -> Result<Bytes, Memory> {
    let mut file = Bytes::new(alloc);
    for _ in 0..number_in(count) {
        file.extend(&[0u8; 4096])?;
    }
    Ok(file)
}

/// The byte of a decimal number, or of two hexadecimal digits.
fn byte_in(digits: &[u8], is_hex: bool) -> u8 {
    let digits = from_utf8(digits).unwrap_or("");
    u8::from_str_radix(digits, if is_hex { 16 } else { 10 }).unwrap_or(0)
}

/// Puts bytes at a place of others, as many as those have there: the byte of a decimal number, or those of pairs of hexadecimal
/// digits.
pub(crate) fn put(bytes: &mut Bytes, place: &str, digits: &str, is_hex: bool) {
    let mut at = number_in(place);
    for digits in digits.as_bytes().chunks(if is_hex { 2 } else { 3 }) {
        if at < bytes.len() {
            bytes.set(at, byte_in(digits, is_hex));
        }
        at = at.saturating_add(1);
    }
}

/// Changes bytes as a word says.
fn change(bytes: &mut Bytes, word: &str, is_hex: bool) -> Result<(), Memory> {
    if let Some(count) = word.strip_prefix("..") {
        bytes.truncate(number_in(count));
    } else if let Some(byte) = word.strip_prefix('+') {
        bytes.push(byte.parse::<u8>().unwrap_or(0))?;
    } else if let Some((place, digits)) = word.split_once(':') {
        put(bytes, place, digits, is_hex);
    }
    Ok(())
}

/// Changes bytes as some words say.
pub(crate) fn change_all(bytes: &mut Bytes, words: &str, is_hex: bool) -> Result<(), Memory> {
    for word in words.split_whitespace() {
        change(bytes, word, is_hex)?;
    }
    Ok(())
}

/// The bytes as some words change them.
pub(crate) fn changed(bytes: &Bytes, words: &str, is_hex: bool) -> Result<Bytes, Memory> {
    let mut copy = bytes.copy()?;
    change_all(&mut copy, words, is_hex)?;
    Ok(copy)
}

/// Adds an array of the name `A0000` with this number in it, behind the name's length.
fn push_array(out: &mut Bytes, number: u32, array: &[u8]) -> Result<(), Memory> {
    let name = format!(in out.allocator(); "\u{5}A{number:04}")?;
    let told = out.extend(name.as_bytes());
    drop(name);
    told?;
    out.extend(array)
}

/// Adds so many arrays, each as this one behind its name.
fn push_arrays(out: &mut Bytes, count: u32, array: &[u8]) -> Result<(), Memory> {
    for number in 0..count {
        push_array(out, number, array)?;
    }
    Ok(())
}

/// The bytes of so many arrays, each as the one of a catalogue whose array has a name of one letter.
pub(crate) fn many(bytes: &Bytes, count: &str) -> Result<Bytes, Memory> {
    let (_, array) = bytes.as_slice().split_at(bytes.len().min(6));
    let count = count.parse::<u32>().unwrap_or(0);
    let mut more = Bytes::from_slice(bytes.allocator(), &count.to_le_bytes())?;
    push_arrays(&mut more, count, array)?;
    Ok(more)
}
