//! Directories.
ghost use Rattle.std.specs.Prelude.{◌≤◌, IfOk};
ghost use Rattle.chunk_map.specs.Entries.{AreRising};

use crate::catalogs::push_spelling;
use crate::told::push_counted;
use cell_values::Memory;
use chunk_map::{BadDirectory, Directory, decode_directory, encode_directory, replaced};
use std::alloc::Global;
use test_kit::{Transcript, push_word};

/// The number of dimensions that a word says: 1 or 2.
fn dims_in(word: &str) -> u32
    ensures some { 1 ≤ result }
    ensures few { result ≤ 6 }
{
    match word {
        "1" => 1,
        _ => 2,
    }
}

fn directory_in(alloc: Global, dims: u32, bytes: &[u8]) -> Result<Directory, BadDirectory>
    requires some { 1 ≤ dims }
    requires few { dims ≤ 6 }
    ensures { IfOk result (λ directory. AreRising directory.entries) }
{
    decode_directory(alloc, dims, bytes)
}

fn push_bad(out: &mut Transcript, bad: BadDirectory) {
    match bad {
        BadDirectory::At { at } => push_counted(out, "wrong at ", at),
        BadDirectory::Memory => push_word(out, "no memory"),
    }
}

/// Adds the spelling of the directory that bytes are read as, or the place of their first wrong item.
pub(crate) fn push_directory(out: &mut Transcript, dims: &str, bytes: &[u8]) {
    let dims = dims_in(dims);
    let alloc = out.alloc();
    match directory_in(alloc, dims, bytes) {
        Ok(directory) => {
            let spelling = encode_directory(alloc, &directory, dims);
            drop(directory);
            push_spelling(out, spelling);
        }
        Err(bad) => push_bad(out, bad),
    }
}

fn push_both(out: &mut Transcript, dims: u32, old: &Directory, fresh: &Directory)
    requires old { AreRising old.now.entries }
    requires fresh { AreRising fresh.now.entries }
{
    match replaced(old, fresh.entries.as_slice()) {
        Ok(new) => {
            let spelling = encode_directory(out.alloc(), &new, dims);
            drop(new);
            push_spelling(out, spelling);
        }
        Err(Memory) => out.note_short(),
    }
}

fn push_over(out: &mut Transcript, dims: u32, old: &Directory, fresh: &[u8])
    requires some { 1 ≤ dims }
    requires few { dims ≤ 6 }
    requires old { AreRising old.now.entries }
{
    match directory_in(out.alloc(), dims, fresh) {
        Ok(fresh) => {
            push_both(out, dims, old, &fresh);
            drop(fresh);
        }
        Err(bad) => push_bad(out, bad),
    }
}

/// Adds the directory of some bytes, in which the entries of that of others stand in place of those of their chunks.
pub(crate) fn push_replaced(out: &mut Transcript, dims: &str, bytes: &[u8], fresh: &[u8]) {
    let dims = dims_in(dims);
    match directory_in(out.alloc(), dims, bytes) {
        Ok(old) => {
            push_over(out, dims, &old, fresh);
            drop(old);
        }
        Err(bad) => push_bad(out, bad),
    }
}
