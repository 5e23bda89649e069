//! The pieces of a script.

use afl_lexer::{SplitStep, Splitter};
use cell_values::Memory;
use test_kit::{Transcript, push_range, push_text, push_word, push_words};

/// Adds a piece that ended: what it is, where it starts and ends, and its bytes.
fn push_piece(out: &mut Transcript, step: SplitStep, splitter: &Splitter) {
    let word = match step {
        SplitStep::Piece => "piece",
        SplitStep::Blank => "blank",
        SplitStep::TooLong => "too long",
        SplitStep::More => return,
    };
    let (start, end, bytes) = splitter.piece();
    push_words(out, &[word, " "]);
    push_range(out, start, end);
    push_word(out, " ");
    push_text(out, bytes);
    push_word(out, "|");
}

/// Adds the pieces of a script, each with its place and a `|` behind it.
pub(crate) fn push_pieces(out: &mut Transcript, script: &[u8]) {
    match Splitter::new(out.alloc()) {
        Ok(mut splitter) => {
            for &byte in script {
                let step = splitter.push(byte);
                push_piece(out, step, &splitter);
            }
            let step = splitter.finish();
            push_piece(out, step, &splitter);
            drop(splitter);
        }
        Err(Memory) => out.note_short(),
    }
}
