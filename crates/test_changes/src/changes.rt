//! Changes of each kind: the bytes of their records, and those of the catalogue after them.
ghost use Rattle.std.specs.Prelude.{◌≡◌, IsTrue, IfOk};
ghost use Rattle.plan_changes.specs.Allowed.{names_allow};
ghost use Rattle.version_catalog.specs.Catalogs.{names_in};
ghost use Rattle.version_catalog.specs.Changed.{has_its_directory};
ghost use Rattle.test_changes.specs.Worked.{worked_catalog};

use crate::changing::{blob, catalog, create, cut, remove, write_none};
use crate::vectors::*;
use cell_values::{Bytes, Memory};
use plan_changes::Change;
use std::alloc::Global;
use test_kit::{Transcript, push_word, push_words, truth_word};
use version_catalog::{BlobAt, Catalog, encode_catalog, encode_record, record_of, with_change};

/// Adds whether something is so, behind what it is.
fn push_truth(out: &mut Transcript, title: &str, is_so: Result<bool, Memory>) {
    match is_so {
        Ok(is_so) => {
            push_word(out, title);
            push_words(out, &[truth_word(is_so), "\n"]);
        }
        Err(Memory) => out.note_short(),
    }
}

/// Where a change makes a version, its directory: 8 bytes in page 9.
fn directory_for(alloc: Global, change: &Change) -> Result<Option<BlobAt>, Memory>
    ensures { IfOk result (λ directory. IsTrue (has_its_directory change.now directory)) }
{
    match change {
        Change::Store { .. } | Change::Insert { .. } => Ok(Some(blob(alloc, 8, 9)?)),
        Change::Create { .. } | Change::Remove { .. } | Change::RemoveVersions { .. } => Ok(None),
    }
}

/// The bytes of a change's record.
fn recorded(catalog: &Catalog, change: &Change) -> Result<Bytes, Memory>
    requires { IsTrue (names_allow (names_in catalog.now) change.now) }
{
    let alloc = catalog.arrays.allocator();
    let directory = directory_for(alloc, change)?;
    let entry = record_of(catalog, change, directory)?;
    let bytes = encode_record(alloc, &entry);
    drop(entry);
    bytes
}

/// The bytes of the catalogue after a change.
fn changed(catalog: &Catalog, change: &Change) -> Result<Bytes, Memory>
    requires { IsTrue (names_allow (names_in catalog.now) change.now) }
{
    let alloc = catalog.arrays.allocator();
    let directory = directory_for(alloc, change)?;
    let after = with_change(catalog, change, directory)?;
    let bytes = encode_catalog(alloc, &after);
    drop(after);
    bytes
}

/// Whether a text has these bytes. It goes.
fn are(text: Result<Bytes, Memory>, bytes: &[u8]) -> Result<bool, Memory> {
    let text = text?;
    let are_same = text.as_slice() == bytes;
    drop(text);
    Ok(are_same)
}

/// Whether a change has this record, and leaves this catalogue.
fn makes(catalog: &Catalog, change: &Change, record: &[u8], after: &[u8]) -> Result<bool, Memory>
    requires { IsTrue (names_allow (names_in catalog.now) change.now) }
{
    let is_recorded = are(recorded(catalog, change), record)?;
    let is_left = are(changed(catalog, change), after)?;
    Ok(is_recorded && is_left)
}

/// Adds whether it does so. The change goes: by `drop`, whose proof is one for all, and not at the end of a scope, where it would
/// be proved in each.
fn push_change(
    out: &mut Transcript,
    catalog: &Catalog,
    title: &str,
    change: Result<Change, Memory>,
    record: &[u8],
    after: &[u8],
)
    requires { IfOk change (λ change. IsTrue (names_allow (names_in catalog.now) change)) }
{
    match change {
        Ok(change) => {
            push_truth(out, title, makes(catalog, &change, record, after));
            drop(change);
        }
        Err(Memory) => out.note_short(),
    }
}

fn push_first_three(out: &mut Transcript, catalog: &Catalog)
    requires { catalog.now ≡ worked_catalog }
{
    let alloc = catalog.arrays.allocator();
    let change = create(alloc);
    push_change(
        out,
        catalog,
        "an array that is created: ",
        change,
        &CREATE_RECORD,
        &CREATED,
    );
    let change = write_none(alloc, b"B", false);
    push_change(
        out,
        catalog,
        "a first version: ",
        change,
        &FIRST_RECORD,
        &STORED,
    );
    let change = write_none(alloc, b"A", false);
    push_change(
        out,
        catalog,
        "a next version: ",
        change,
        &NEXT_RECORD,
        &NEXT,
    );
}

fn push_last_three(out: &mut Transcript, catalog: &Catalog)
    requires { catalog.now ≡ worked_catalog }
{
    let alloc = catalog.arrays.allocator();
    let change = write_none(alloc, b"A", true);
    push_change(out, catalog, "an insert: ", change, &NEXT_RECORD, &NEXT);
    push_change(
        out,
        catalog,
        "an array that is removed: ",
        remove(alloc),
        &REMOVE_RECORD,
        &REMOVED,
    );
    push_change(
        out,
        catalog,
        "versions that are removed: ",
        cut(alloc),
        &CUT_RECORD,
        &CUT,
    );
}

fn push_all(out: &mut Transcript, catalog: &Catalog)
    requires { catalog.now ≡ worked_catalog }
{
    let alloc = catalog.arrays.allocator();
    push_truth(
        out,
        "the catalogue: ",
        are(encode_catalog(alloc, catalog), &START),
    );
    push_first_three(out, catalog);
    push_last_three(out, catalog);
}

/// Adds of each kind of change whether its record, and the catalogue behind it, have the bytes that were spelled by hand.
pub(crate) fn push_changes(out: &mut Transcript) {
    push_word(out, "### changes\n");
    match catalog(out.alloc()) {
        Ok(catalog) => {
            push_all(out, &catalog);
            drop(catalog);
        }
        Err(Memory) => out.note_short(),
    }
}
