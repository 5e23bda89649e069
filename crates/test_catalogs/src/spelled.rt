//! How catalogues, their records and directories are read and spelled, and what a file keeps.
//!
//! `bytes 0100` says which bytes the lines behind it speak of. `catalogue`, `record` and `directory 2`, for chunks of two
//! dimensions, are answered by the spelling of what these bytes are read as, or by the place of their first wrong item; words
//! behind them change the bytes for that line: `4:0` is byte 4 as 0, `..43` the first 43 bytes, and `+0` one byte more.
//! `cuts` tells the first wrong item of each shorter front of the catalogue. `allows 040141` tells whether the catalogue
//! allows a record, `after 040141` the catalogue after it, and `replace 2 0000` the directory with the entries of another
//! one. `many 1024` makes so many arrays of the catalogue's first one, under names that rise.
//!
//! `pages 5` says that the bytes are those of a file of so many pages of zeros, and `at 512 02` which bytes stand at a place of
//! it. `open` is answered by what is found in the file, or by the page at which it is wrong; words behind it change the file for
//! that line: `12296:01` puts bytes at a place, and `..20479` cuts it.

use crate::catalogs::{push_by, push_catalog, push_cuts, push_record};
use crate::checks::push_checked;
use crate::digits::{change_all, changed, front_of, many, put, zeros};
use crate::directories::{push_directory, push_replaced};
use crate::opens::push_opened;
use cell_values::{Bytes, Memory};
use test_kit::{Transcript, bytes_in, push_word};

/// Adds the spelling of what the bytes are read as where they are changed: as a catalogue, as a record, or as a directory of
/// this number of dimensions.
fn push_changed(out: &mut Transcript, bytes: &Bytes, form: &str, changes: &str) {
    match changed(bytes, changes, false) {
        Ok(changed) => {
            match form {
                "catalogue" => push_catalog(out, changed.as_slice()),
                "record" => push_record(out, changed.as_slice()),
                dims => push_directory(out, dims, changed.as_slice()),
            }
            drop(changed);
        }
        Err(Memory) => out.note_short(),
    }
}

/// Adds what the bytes and those of some digits make together: as a catalogue and a record, or as directories of this number of
/// dimensions.
fn push_both(out: &mut Transcript, bytes: &Bytes, form: &str, digits: &str) {
    match bytes_in(out.alloc(), digits) {
        Ok(more) => {
            match form {
                "allows" => push_by(out, bytes.as_slice(), more.as_slice(), false),
                "after" => push_by(out, bytes.as_slice(), more.as_slice(), true),
                dims => push_replaced(out, dims, bytes.as_slice(), more.as_slice()),
            }
            drop(more);
        }
        Err(Memory) => out.note_short(),
    }
}

/// Adds the answer to a word that doesn't change the bytes, and to what stands behind it.
fn push_told(out: &mut Transcript, bytes: &Bytes, word: &str, behind: &str) {
    let (first, rest) = front_of(behind);
    match word {
        "cuts" => push_cuts(out, bytes.as_slice()),
        "allows" | "after" => push_both(out, bytes, word, behind),
        "directory" => push_changed(out, bytes, first, rest),
        "replace" => push_both(out, bytes, first, rest),
        form => push_changed(out, bytes, form, behind),
    }
    push_word(out, "\n");
}

/// Makes the bytes of which the lines behind it speak.
fn renew(bytes: &mut Bytes, word: &str, operands: &str) -> Result<(), Memory> {
    let (first, rest) = front_of(operands);
    match word {
        "at" => put(bytes, first, rest, true),
        "bytes" => {
            *bytes = bytes_in(bytes.allocator(), first)?;
            change_all(bytes, rest, false)?;
        }
        "pages" => *bytes = zeros(bytes.allocator(), first)?,
        _ => *bytes = many(bytes, first)?,
    }
    Ok(())
}

/// Adds the answer to a line, or says which bytes there are.
pub(crate) fn push_line(out: &mut Transcript, bytes: &mut Bytes, line: &str) {
    let (word, behind) = front_of(line);
    match word {
        "bytes" | "many" | "pages" | "at" => out.note(renew(bytes, word, behind).is_ok()),
        "check" => push_checked(out, bytes, behind),
        "open" => push_opened(out, bytes, behind),
        word => push_told(out, bytes, word, behind),
    }
}
