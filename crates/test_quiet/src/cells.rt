//! Versions that words name, and chunks that were read of them, as texts.
ghost use Rattle.std.specs.Prelude.{◌≡◌, nat_eq, IfOk, IfSome};
ghost use Rattle.std.specs.List.{list_any};
ghost use Rattle.cell_values.specs.Schemas.{IsValid};
ghost use Rattle.plan_changes.specs.Stored.{AreStored};
ghost use Rattle.store_state.specs.Calls.{IsLeafOf};
ghost use Rattle.test_quiet.specs.Cells.{IsRead, IsVersionIn};

use crate::steps::count_of;
use array_geom::{Chunk, ChunkedArray, margins_of};
use cell_values::{Bytes, List, Memory, Name, Row};
use chunk_cells::into_rows;
use logical_plan::{Leaf, NameEntry, Names};
use plan_changes::entry_named;
use result_print::dcsv;
use std::alloc::Global;
use store_state::ReadFault;
use test_kit::name_of;

fn is_among(versions: &List<u32>, version: u32) -> bool
    ensures { result ≡ list_any (λ v. nat_eq v version) versions.now }
{
    versions.as_slice().contains(&version)
}

/// A version of an array under this name.
fn leaf_in(entry: &NameEntry, name: &Name, version: u32) -> Option<Leaf>
    ensures { IfSome result (IsVersionIn entry.now name.now) }
{
    if !is_among(&entry.versions, version) {
        return None;
    }
    match name.copy() {
        Ok(name) => match entry.schema.copy() {
            Ok(schema) => Some(Leaf {
                name,
                version,
                schema,
            }),
            Err(Memory) => None,
        },
        Err(Memory) => None,
    }
}

/// A version that can be named.
pub fn leaf_of(names: &Names, name: &Name, version: u32) -> Option<Leaf>
    requires { AreStored names.now }
    ensures leaf { IfSome result (IsLeafOf names.now) }
    ensures valid { IfSome result (λ leaf. IsValid leaf.schema) }
{
    match entry_named(&names.arrays, name) {
        Some(entry) => leaf_in(entry, name, version),
        None => None,
    }
}

/// The version of a word as `A@1`.
pub fn named_leaf(alloc: Global, names: &Names, word: &str) -> Option<Leaf>
    requires { AreStored names.now }
    ensures leaf { IfSome result (IsLeafOf names.now) }
    ensures valid { IfSome result (λ leaf. IsValid leaf.schema) }
{
    let Some((name, version)) = word.split_once('@') else {
        return None;
    };
    match name_of(alloc, name.as_bytes()) {
        Ok(name) => leaf_of(names, &name, count_of(version)),
        Err(Memory) => None,
    }
}

/// Adds the rows of a chunk's core.
fn add_rows(rows: &mut List<Row>, leaf: &Leaf, chunk: Chunk) -> Result<(), Memory>
    requires valid { IsValid leaf.now.schema }
    requires read { IsRead leaf.now.schema chunk }
{
    let mut chunks = leaf.schema.dimensions.another();
    chunks.push(chunk)?;
    rows.append(into_rows(ChunkedArray {
        schema: leaf.schema.copy()?,
        margins: margins_of(&leaf.schema),
        chunks,
        broken: None,
    })?)
}

/// Adds the rows of a chunk that was read, and tells whether there was one.
pub fn add_read(
    rows: &mut List<Row>,
    leaf: &Leaf,
    found: Result<Option<Chunk>, ReadFault>,
) -> Result<bool, ReadFault>
    requires valid { IsValid leaf.now.schema }
    requires read { IfOk found (λ read. IfSome read (IsRead leaf.now.schema)) }
{
    match found {
        Ok(Some(chunk)) => match add_rows(rows, leaf, chunk) {
            Ok(()) => Ok(true),
            Err(Memory) => Err(ReadFault::Memory),
        },
        Ok(None) => Ok(false),
        Err(fault) => Err(fault),
    }
}

/// Rows of a version as lines, behind its attributes' names.
pub fn lines_of(alloc: Global, leaf: &Leaf, rows: List<Row>) -> Result<Bytes, ReadFault> {
    match dcsv(alloc, &leaf.schema, rows.as_slice()) {
        Ok(text) => Ok(text),
        Err(Memory) => Err(ReadFault::Memory),
    }
}
