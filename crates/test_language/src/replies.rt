//! The texts of changes, listings and refusals.

use crate::stored::{array_in, number_of, push_arrays_in};
use crate::texts::front_of;
use cell_values::{List, Memory};
use logical_plan::{NameEntry, Names};
use result_print::{
    Refusal, list_text, ok_line, refusal_line, show_text, stored_line, versions_text,
};
use test_kit::{Transcript, push_made, push_word};

fn push_entry(out: &mut Transcript, entry: &NameEntry) {
    let alloc = out.alloc();
    push_made(out, show_text(alloc, entry));
    push_made(out, versions_text(alloc, entry));
    push_made(out, stored_line(alloc, &entry.name, entry.next));
    push_made(out, ok_line(alloc));
}

/// Adds what is told of the array of a text.
pub(crate) fn push_array(out: &mut Transcript, text: &str) {
    match array_in(out.alloc(), text) {
        Ok(entry) => {
            push_entry(out, &entry);
            drop(entry);
        }
        Err(Memory) => push_word(out, "no array"),
    }
}

/// Adds the list of the arrays of a text, and of none for `-`.
pub(crate) fn push_list(out: &mut Transcript, text: &str) {
    let alloc = out.alloc();
    let mut names = Names {
        arrays: List::new(alloc),
    };
    if text != "-" {
        let added = push_arrays_in(&mut names.arrays, text);
        out.note(added.is_ok());
    }
    push_made(out, list_text(alloc, &names));
    drop(names);
}

/// The refusal of a text such as `full 3 1`, or of a word alone.
fn refusal_in(text: &str) -> Refusal {
    let (word, counts) = front_of(text);
    let (needed, free) = front_of(counts);
    match word {
        "damaged" => Refusal::Damaged {
            page: number_of(counts),
        },
        "full" => Refusal::Full {
            needed: number_of(needed),
            free: number_of(free),
        },
        "disk" => Refusal::Disk,
        "history" => Refusal::HistoryFull,
        "sequence" => Refusal::SequenceEnd,
        _ => Refusal::Memory,
    }
}

/// Adds the line of the refusal of a text.
pub(crate) fn push_refusal(out: &mut Transcript, text: &str) {
    let refusal = refusal_in(text);
    let line = refusal_line(out.alloc(), &refusal);
    drop(refusal);
    push_made(out, line);
}
