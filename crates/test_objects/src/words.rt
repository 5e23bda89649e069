//! The words of lines, and their numbers.

use cell_values::{List, Memory};

/// The number of a word; 0 where it is none.
pub(crate) fn number_in(word: &str) -> u64 {
    word.parse::<u64>().unwrap_or(0)
}

/// The first word of a text with spaces around it, and what stands behind it.
pub(crate) fn front_of(text: &str) -> (&str, &str) {
    let text = text.trim();
    text.split_once(' ').unwrap_or((text, ""))
}

/// Adds the numbers of words.
pub(crate) fn push_numbers(numbers: &mut List<u64>, words: &str) -> Result<(), Memory> {
    for word in words.split_whitespace() {
        numbers.push(number_in(word))?;
    }
    Ok(())
}
