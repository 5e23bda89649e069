//! Catalogues and records.

use crate::told::push_counted;
use cell_values::{Bytes, Memory};
use test_kit::{Transcript, push_count, push_hex, push_word};
use version_catalog::{
    BadCatalog, Catalog, CatalogRecord, allowed, decode_catalog, decode_record, encode_catalog,
    encode_record, with_record,
};

/// Adds bytes in hexadecimal digits, and lets them go.
pub(crate) fn push_spelling(out: &mut Transcript, spelling: Result<Bytes, Memory>) {
    match spelling {
        Ok(bytes) => {
            push_hex(out, bytes.as_slice());
            drop(bytes);
        }
        Err(Memory) => out.note_short(),
    }
}

fn push_bad(out: &mut Transcript, bad: BadCatalog) {
    match bad {
        BadCatalog::At { at } => push_counted(out, "wrong at ", at),
        BadCatalog::Memory => push_word(out, "no memory"),
    }
}

/// Adds the spelling of the catalogue that bytes are read as, or the place of their first wrong item.
pub(crate) fn push_catalog(out: &mut Transcript, bytes: &[u8]) {
    let alloc = out.alloc();
    match decode_catalog(alloc, bytes) {
        Ok(catalog) => {
            let spelling = encode_catalog(alloc, &catalog);
            drop(catalog);
            push_spelling(out, spelling);
        }
        Err(bad) => push_bad(out, bad),
    }
}

/// Adds the place of the first wrong item of each shorter front of a catalogue.
pub(crate) fn push_cuts(out: &mut Transcript, bytes: &[u8]) {
    for count in 0..bytes.len() {
        let (front, _) = bytes.split_at(count);
        match decode_catalog(out.alloc(), front) {
            Ok(catalog) => {
                drop(catalog);
                push_word(out, "none");
            }
            Err(BadCatalog::At { at }) => push_count(out, at),
            Err(BadCatalog::Memory) => push_word(out, "none"),
        }
        push_word(out, " ");
    }
}

/// Adds the spelling of the record that bytes are read as, or the place of their first wrong item.
pub(crate) fn push_record(out: &mut Transcript, bytes: &[u8]) {
    let alloc = out.alloc();
    match decode_record(alloc, bytes) {
        Ok(entry) => {
            let spelling = encode_record(alloc, &entry);
            drop(entry);
            push_spelling(out, spelling);
        }
        Err(bad) => push_bad(out, bad),
    }
}

fn push_after(out: &mut Transcript, after: Result<Catalog, Memory>) {
    match after {
        Ok(after) => {
            let spelling = encode_catalog(out.alloc(), &after);
            drop(after);
            push_spelling(out, spelling);
        }
        Err(Memory) => out.note_short(),
    }
}

/// Adds what a catalogue makes of a record: the catalogue after it, or whether it is allowed.
fn push_of(out: &mut Transcript, catalog: &Catalog, entry: &CatalogRecord, is_applied: bool) {
    let is_allowed = allowed(catalog, entry);
    if !is_applied {
        push_word(out, if is_allowed { "yes" } else { "no" });
    } else if !is_allowed {
        push_word(out, "not allowed");
    } else {
        push_after(out, with_record(catalog, entry));
    }
}

/// Adds what a catalogue makes of the record of some bytes.
fn push_over(out: &mut Transcript, catalog: &Catalog, entry: &[u8], is_applied: bool) {
    match decode_record(out.alloc(), entry) {
        Ok(entry) => {
            push_of(out, catalog, &entry, is_applied);
            drop(entry);
        }
        Err(bad) => push_bad(out, bad),
    }
}

/// Adds whether the catalogue of some bytes allows the record of others, or the catalogue after that record.
pub(crate) fn push_by(out: &mut Transcript, bytes: &[u8], entry: &[u8], is_applied: bool) {
    match decode_catalog(out.alloc(), bytes) {
        Ok(catalog) => {
            push_over(out, &catalog, entry, is_applied);
            drop(catalog);
        }
        Err(bad) => push_bad(out, bad),
    }
}
