//! The payloads of a version.
ghost use Rattle.std.specs.Prelude.{◌≡◌, ◌<◌, ℕ, List, length, slice_index, Some, IfErr, IfOk, IsTrue, MatchResult};
ghost use Rattle.std.specs.List.{AllByRecursion};
ghost use Rattle.cell_values.specs.Schemas.{IsValid};
ghost use Rattle.array_geom.specs.Geometry.{has_core};
ghost use Rattle.page_chain.specs.Inner.Runs.{OnlyReads};
ghost use Rattle.page_file.specs.Pages.{page_size, pages_for};
ghost use Rattle.chunk_rle.specs.Stored.{IsStored};
ghost use Rattle.backup_format.specs.Laws.{AreBytes};
ghost use Rattle.file_checking.specs.Checks.{HasCause, test_payload};
ghost use Rattle.file_checking.specs.Inner.Steps.{test_entries, AreEntriesOf, AreWhole, IsChunkRead, IsDecoded, IsEntryOf, IsPayloadRead, Stops};

use crate::sound::CheckFault;
use afl_outside::Disk;
use array_geom::Chunk;
use cell_values::{Bytes, Schema};
use chunk_map::DirEntry;
use chunk_rle::{BadPayload, decode};
use page_file::{BlobFault, PageFile};
use std::alloc::Global;

/// The page at which a payload begins.
pub(crate) fn first_page(entry: &DirEntry) -> u32
    requires { 0 < length entry.now.pages }
    ensures { result ≡ slice_index entry.now.pages 0 }
{
    entry.pages.as_slice()[0]
}

/// The bytes of a payload.
fn read_payload<D: Disk>(
    alloc: Global,
    file: &mut PageFile<D>,
    entry: &DirEntry,
) -> Result<Bytes, CheckFault>
    requires pages { length entry.now.pages ≡ pages_for page_size entry.now.length }
    requires some { 0 < length entry.now.pages }
    ensures told { (seen : List ℕ) → (D.moment file.old.disk).state.seen ≡ Some seen → IsPayloadRead seen entry.now result }
    ensures reads { OnlyReads (D.moment file.old.disk) (D.moment file.new.disk) }
    ensures cause { IfErr result (λ fault. HasCause fault (D.moment file.old.disk).state (D.moment file.new.disk).state) }
{
    match file.read_blob(alloc, entry.pages.as_slice(), entry.length) {
        Ok(bytes) => Ok(bytes),
        Err(BlobFault::Disk) => Err(CheckFault::Disk),
        Err(BlobFault::Memory) => Err(CheckFault::Memory),
        Err(BlobFault::Damaged { .. }) => Err(CheckFault::Damaged {
            page: first_page(entry),
        }),
    }
}

/// The chunk that the bytes of a payload spell.
fn decoded(
    alloc: Global,
    schema: &Schema,
    entry: &DirEntry,
    bytes: &[u8],
) -> Result<Chunk, CheckFault>
    requires valid { IsValid schema.now }
    requires core { IsTrue (has_core schema.now.dimensions entry.now.at.items) }
    requires some { 0 < length entry.now.pages }
    ensures decoded { IsDecoded schema.now entry.now bytes.now result }
    ensures small { AreBytes bytes.now }
    ensures stored { IfOk result (IsStored schema.now) }
    ensures number { IfOk result (λ chunk. chunk.at ≡ entry.now.at) }
{
    match decode(alloc, schema, &entry.at, bytes) {
        Ok(chunk) => Ok(chunk),
        Err(BadPayload::Memory) => Err(CheckFault::Memory),
        Err(BadPayload::At { .. }) => Err(CheckFault::Damaged {
            page: first_page(entry),
        }),
    }
}

/// The chunk of a payload, and its bytes.
pub(crate) fn read_chunk<D: Disk>(
    alloc: Global,
    file: &mut PageFile<D>,
    schema: &Schema,
    entry: &DirEntry,
) -> Result<(Chunk, Bytes), CheckFault>
    requires valid { IsValid schema.now }
    requires entry { IsEntryOf schema.now entry.now }
    ensures told { (seen : List ℕ) → (D.moment file.old.disk).state.seen ≡ Some seen
        → MatchResult result (λ x. IsChunkRead seen schema.now entry.now x.0 x.1) (λ fault. Stops fault (test_payload seen schema.now entry.now)) }
    ensures stored { IfOk result (λ x. IsStored schema.now x.0) }
    ensures number { IfOk result (λ x. x.0.at ≡ entry.now.at) }
    ensures reads { OnlyReads (D.moment file.old.disk) (D.moment file.new.disk) }
    ensures cause { IfErr result (λ fault. HasCause fault (D.moment file.old.disk).state (D.moment file.new.disk).state) }
{
    match read_payload(alloc, file, entry) {
        Ok(bytes) => match decoded(alloc, schema, entry, bytes.as_slice()) {
            Ok(chunk) => Ok((chunk, bytes)),
            Err(fault) => Err(fault),
        },
        Err(fault) => Err(fault),
    }
}

/// Reads the payloads of a version, one after the other, and keeps none of them.
pub(crate) fn read_payloads<D: Disk>(
    alloc: Global,
    file: &mut PageFile<D>,
    schema: &Schema,
    entries: &[DirEntry],
) -> Result<(), CheckFault>
    requires valid { IsValid schema.now }
    requires entries { AreEntriesOf schema.now entries.now }
    ensures told { (seen : List ℕ) → (D.moment file.old.disk).state.seen ≡ Some seen
        → MatchResult result (λ _. AreWhole seen schema.now entries.now) (λ fault. Stops fault (test_entries seen schema.now entries.now)) }
    ensures reads { OnlyReads (D.moment file.old.disk) (D.moment file.new.disk) }
    ensures cause { IfErr result (λ fault. HasCause fault (D.moment file.old.disk).state (D.moment file.new.disk).state) }
{
    for entry in entries {
        match read_chunk(alloc, file, schema, entry) {
            Ok(_read) => {}
            Err(fault) => return Err(fault),
        }
    }
    Ok(())
}
