//! The texts that lines stand for.
ghost use Rattle.std.specs.Prelude.{◌<◌};

use cell_values::{Bytes, Memory};
use std::alloc::Global;
use std::str::from_utf8;

/// Adds what braces stand for, by the number and the text between them.
fn write_repeated(text: &mut Bytes, part: &[u8]) -> Result<(), Memory> {
    let Some(space) = part.iter().position(|byte| *byte == b' ') else {
        return Ok(());
    };
    let (digits, item) = part.split_at(space);
    let count = from_utf8(digits).unwrap_or("");
    for _ in 0..count.parse::<u32>().unwrap_or(0) {
        text.extend(&item[1..])?;
    }
    Ok(())
}

/// The text that a line stands for: `~` is a line feed, and `{127 (}` is 127 times `(`.
pub fn text_of(alloc: Global, line: &[u8]) -> Result<Bytes, Memory> {
    let mut text = Bytes::new(alloc);
    let mut part = Bytes::new(alloc);
    let mut is_repeated = false;
    for byte in line {
        match *byte {
            b'{' => is_repeated = true,
            b'}' => {
                write_repeated(&mut text, part.as_slice())?;
                part.clear();
                is_repeated = false;
            }
            b'~' => text.push(b'\n')?,
            byte if is_repeated => part.push(byte)?,
            byte => text.push(byte)?,
        }
    }
    Ok(text)
}

/// The value of a hexadecimal digit.
fn digit_of(digit: u8) -> u8
    ensures { result < 16 }
{
    match digit {
        b'0'..=b'9' => digit - b'0',
        b'a'..=b'f' => digit - b'a' + 10,
        _ => 0,
    }
}

/// Adds what stands behind a `^`: the byte of a number, and a text.
fn write_numbered(bytes: &mut Bytes, part: &str) -> Result<(), Memory> {
    if let [high, low, plain @ ..] = part.as_bytes() {
        bytes.push(digit_of(*high) * 16 + digit_of(*low))?;
        bytes.extend(plain)?;
    }
    Ok(())
}

/// The bytes that a text stands for, in which `^0a` is the byte of that number.
pub fn bytes_of(alloc: Global, text: &str) -> Result<Bytes, Memory> {
    let mut bytes = Bytes::new(alloc);
    for (place, part) in text.split('^').enumerate() {
        if place == 0 {
            bytes.extend(part.as_bytes())?;
        } else {
            write_numbered(&mut bytes, part)?;
        }
    }
    Ok(bytes)
}

/// The bytes that pairs of hexadecimal digits stand for.
pub fn bytes_in(alloc: Global, digits: &str) -> Result<Bytes, Memory> {
    let mut bytes = Bytes::new(alloc);
    for pair in digits.as_bytes().chunks(2) {
        let pair = from_utf8(pair).unwrap_or("");
        bytes.push(u8::from_str_radix(pair, 16).unwrap_or(0))?;
    }
    Ok(bytes)
}
