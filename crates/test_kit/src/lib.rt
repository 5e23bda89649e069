//! What the programs of tests share: the texts and values that words stand for, the words for values, and files in memory for disks.
#![tactic(auto)]

mod files;
mod known;
mod lines;
mod shown;
mod transcript;
mod words;

pub use files::{
    changed, commit_base, commit_record, cut, disk_bytes, disk_of, kept_by, made, of_format_one,
    open, unsynced,
};
pub use known::{name_of, one_more};
pub use lines::{bytes_in, bytes_of, text_of};
pub use shown::{
    push_cell, push_chunk, push_code, push_coord, push_count, push_counts, push_datum, push_hex,
    push_integer, push_made, push_number, push_numbered, push_quoted, push_range, push_text,
    push_value, push_word, push_words, truth_word,
};
pub use transcript::{Transcript, begin_answer, input};
pub use words::{cell_of, coord_in, datum_of, fault_of, number_in, place_in, words_of};
