//! Texts with a number, a name or numbers behind them.

use cell_values::{List, Name};
use test_kit::{Transcript, push_count, push_text, push_word};

/// Adds a text, and a number behind it.
pub fn push_counted(out: &mut Transcript, word: &str, number: u64) {
    push_word(out, word);
    push_count(out, number);
}

/// Adds a text, and a name behind it.
pub fn push_named(out: &mut Transcript, word: &str, name: &Name) {
    push_word(out, word);
    push_text(out, name.as_slice());
}

/// Adds a text, numbers behind it, each behind a space, and ends the line.
pub fn push_numbers(out: &mut Transcript, word: &str, numbers: &List<u32>) {
    push_word(out, word);
    for number in numbers.as_slice() {
        push_counted(out, " ", u64::from(*number));
    }
    push_word(out, "\n");
}
