//! The words that a program was given.

use cell_values::Memory;
use command_words::Arg;
use std::alloc::Global;
use std::env::{Env, FillError};

/// What stands for a word that is no text: no form has it at any place.
const NO_TEXT: &str = "--";

/// The words, without the program's name.
pub fn words_of(env: &impl Env, alloc: Global) -> Result<Vec<Arg>, Memory> {
    let mut words = Vec::new(alloc);
    for place in 1..usize::MAX {
        match word_at(env, alloc, place)? {
            Some(word) => words.push(Arg::new(word))?,
            None => break,
        }
    }
    Ok(words)
}

/// What stands at a place behind the program's name.
#[derive(Drop)]
enum Found {
    Word(String),
    Nothing,
    /// A word that has no room in so many bytes.
    Longer,
}

fn word_at(env: &impl Env, alloc: Global, place: usize) -> Result<Option<String>, Memory> {
    let mut room = 256usize;
    for _ in 0..usize::BITS {
        match found_at(env, alloc, place, room)? {
            Found::Word(word) => return Ok(Some(word)),
            Found::Nothing => return Ok(None),
            Found::Longer => room = room.saturating_mul(2),
        }
    }
    Err(Memory)
}

fn found_at(env: &impl Env, alloc: Global, place: usize, room: usize) -> Result<Found, Memory> {
    let mut bytes = vec![in alloc; 0u8; room]?;
    match env.arg(place, &mut bytes) {
        Ok(length) => {
            bytes.truncate(length);
            text_of(alloc, bytes)
        }
        Err(FillError::NotPresent) => Ok(Found::Nothing),
        Err(FillError::TooLong) => Ok(Found::Longer),
    }
}

/// A word of these bytes, or what stands for one that is no text.
fn text_of(alloc: Global, bytes: Vec<u8>) -> Result<Found, Memory> {
    match String::from_utf8(bytes) {
        Ok(word) => Ok(Found::Word(word)),
        Err(_) => Ok(Found::Word(String::from_str(alloc, NO_TEXT)?)),
    }
}
