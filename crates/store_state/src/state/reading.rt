//! Chunks that are read from the file.
ghost use Rattle.std.specs.Prelude.{◌≡◌, ◌<◌, ℕ, List, length, IfSome, IfOk, IfErr, IsErrOf, IsTrue};
ghost use Rattle.std.specs.List.{find};
ghost use Rattle.std.specs.Option.{option_copied};
ghost use Rattle.afl_outside.specs.Counts.{Rose};
ghost use Rattle.cell_values.specs.Schemas.{IsValid};
ghost use Rattle.array_geom.specs.Geometry.{has_core};
ghost use Rattle.std.specs.Ordering.{is_eq};
ghost use Rattle.array_geom.specs.Link.{number_order};
ghost use Rattle.chunk_map.specs.Entries.{AreRising};
ghost use Rattle.page_chain.specs.Pages.{page_size, pages_for};
ghost use Rattle.page_chain.specs.Inner.Runs.{OnlyReads};
ghost use Rattle.page_chain.specs.Standing.{IsSound};
ghost use Rattle.chunk_rle.specs.Stored.{IsStored};
ghost use Rattle.store_state.specs.Calls.{IsRead};
ghost use Rattle.store_state.specs.Inner.Decoded.{IsDecoded, IsToldBy};

use crate::state::ReadFault;
use afl_outside::Disk;
use array_geom::Chunk;
use cell_values::{Bytes, ChunkAt, Schema, compare_numbers};
use chunk_map::DirEntry;
use chunk_rle::{BadPayload, decode};
use page_file::{BlobFault, PageFile};
use std::alloc::Global;
use std::cmp::Ordering;

/// The entry of a chunk, by halves.
pub(crate) fn entry_at<'a>(entries: &'a [DirEntry], at: &ChunkAt) -> Option<&'a DirEntry>
    requires { AreRising entries.now }
    ensures { option_copied result ≡ find (λ entry. is_eq (number_order entry.at.items at.now.items)) entries.now }
{
    let mut start = 0;
    let mut end = entries.len();
    while start < end {
        let middle = start + (end - start) / 2;
        let entry = &entries[middle];
        match compare_numbers(&entry.at, at) {
            Ordering::Less => start = middle + 1,
            Ordering::Greater => end = middle,
            Ordering::Equal => return Some(entry),
        }
    }
    None
}

/// The chunk that these bytes of an entry spell.
fn decoded(
    alloc: Global,
    schema: &Schema,
    entry: &DirEntry,
    bytes: &Bytes,
) -> Result<Chunk, ReadFault>
    requires valid { IsValid schema.now }
    requires core { IsTrue (has_core schema.now.dimensions entry.now.at.items) }
    requires pages { 0 < length entry.now.pages }
    ensures spelled { IsDecoded schema.now entry.now bytes.now result }
    ensures stored { IfOk result (IsStored schema.now) }
    ensures number { IfOk result (λ chunk. chunk.at ≡ entry.now.at) }
{
    match decode(alloc, schema, &entry.at, bytes.as_slice()) {
        Ok(chunk) => Ok(chunk),
        Err(BadPayload::Memory) => Err(ReadFault::Memory),
        Err(BadPayload::At { .. }) => Err(ReadFault::Damaged {
            page: entry.pages.as_slice()[0],
        }),
    }
}

/// The chunk whose payload an entry lists.
pub(crate) fn read_entry<D: Disk>(
    alloc: Global,
    file: &mut PageFile<D>,
    schema: &Schema,
    entry: &DirEntry,
) -> Result<Chunk, ReadFault>
    requires valid { IsValid schema.now }
    requires core { IsTrue (has_core schema.now.dimensions entry.now.at.items) }
    requires pages { length entry.now.pages ≡ pages_for page_size entry.now.length }
    requires some { 0 < length entry.now.pages }
    ensures told { IfErr result (IsToldBy entry.now) }
    ensures exact { IfSome (D.moment file.old.disk).state.seen (λ seen. IsRead seen schema.now entry.now result) }
    ensures stored { IfOk result (IsStored schema.now) }
    ensures number { IfOk result (λ chunk. chunk.at ≡ entry.now.at) }
    ensures fault { IsErrOf result ReadFault.Disk → Rose (D.moment file.old.disk).state.faults (D.moment file.new.disk).state.faults }
    ensures slots { file.new.slots ≡ file.old.slots }
    ensures reads { OnlyReads (D.moment file.old.disk) (D.moment file.new.disk) }
    ensures sound { (seen : List ℕ) → IsSound file.old.slots seen (D.moment file.old.disk).may_leave
        → IsSound file.new.slots seen (D.moment file.new.disk).may_leave }
{
    match file.read_blob(alloc, entry.pages.as_slice(), entry.length) {
        Ok(bytes) => decoded(alloc, schema, entry, &bytes),
        Err(BlobFault::Disk) => Err(ReadFault::Disk),
        Err(BlobFault::Memory) => Err(ReadFault::Memory),
        Err(BlobFault::Damaged { .. }) => Err(ReadFault::Damaged {
            page: entry.pages.as_slice()[0],
        }),
    }
}
