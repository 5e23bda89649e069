//! The overlaps of a version.
ghost use Rattle.std.specs.Prelude.{◌≡◌, ◌<◌, ℕ, List as Items, length, map, Some, IfErr, IfOk, IsTrue, MatchResult};
ghost use Rattle.std.specs.List.{AllByRecursion};
ghost use Rattle.std.specs.Str.{bytes_eq};
ghost use Rattle.cell_values.specs.Schemas.{IsValid};
ghost use Rattle.array_geom.specs.Geometry.{has_core, overlaps};
ghost use Rattle.array_geom.specs.Link.{NumbersRise, core_rows, numbers};
ghost use Rattle.page_chain.specs.Inner.Runs.{OnlyReads};
ghost use Rattle.chunk_map.specs.Entries.{numbers as entry_numbers};
ghost use Rattle.chunk_rle.specs.Stored.{IsStored};
ghost use Rattle.backup_format.specs.Pieces.{stored_payload};
ghost use Rattle.file_checking.specs.Checks.{HasCause, each, test_overlap};
ghost use Rattle.file_checking.specs.Inner.Steps.{overlap_fault, payload_in, test_entries, AreChunksRead, AreEntriesOf, AreOverlaps, Stops};

use crate::payloads::{first_page, read_chunk};
use crate::sound::CheckFault;
use afl_outside::Disk;
use array_geom::Chunk;
use backup_format::payload_of_cores;
use cell_values::{Bytes, List, Memory, Schema};
use chunk_map::DirEntry;
use page_file::PageFile;
use std::alloc::Global;

/// The chunks of a version, and the bytes of their payloads.
fn read_chunks<D: Disk>(
    alloc: Global,
    file: &mut PageFile<D>,
    schema: &Schema,
    entries: &[DirEntry],
) -> Result<(List<Chunk>, List<Bytes>), CheckFault>
    requires valid { IsValid schema.now }
    requires entries { AreEntriesOf schema.now entries.now }
    ensures told { (seen : Items ℕ) → (D.moment file.old.disk).state.seen ≡ Some seen
        → MatchResult result (λ x. AreChunksRead seen schema.now entries.now x.0 x.1) (λ fault. Stops fault (test_entries seen schema.now entries.now)) }
    ensures stored { IfOk result (λ x. AllByRecursion (IsStored schema.now) x.0) }
    ensures numbers { IfOk result (λ x. numbers x.0 ≡ entry_numbers entries.now) }
    ensures each { IfOk result (λ x. length x.1 ≡ length entries.now) }
    ensures reads { OnlyReads (D.moment file.old.disk) (D.moment file.new.disk) }
    ensures cause { IfErr result (λ fault. HasCause fault (D.moment file.old.disk).state (D.moment file.new.disk).state) }
{
    let mut chunks = List::new(alloc);
    let mut payloads = List::new(alloc);
    for entry in entries {
        match read_chunk(alloc, file, schema, entry) {
            Ok((chunk, bytes)) => {
                chunks.push(chunk)?;
                payloads.push(bytes)?;
            }
            Err(fault) => return Err(fault),
        }
    }
    Ok((chunks, payloads))
}

/// Whether a payload is that of its chunk among all.
fn is_its_payload(
    alloc: Global,
    schema: &Schema,
    chunks: &[Chunk],
    entry: &DirEntry,
    payload: &Bytes,
) -> Result<bool, Memory>
    requires valid { IsValid schema.now }
    requires core { IsTrue (has_core schema.now.dimensions entry.now.at.items) }
    requires stored { AllByRecursion (IsStored schema.now) chunks.now }
    requires rise { NumbersRise (numbers chunks.now) }
    ensures { IfOk result (λ is. is ≡ bytes_eq payload.now (stored_payload schema.now
        (core_rows schema.now.dimensions (overlaps schema.now.dimensions) chunks.now) entry.now.at.items)) }
{
    let own = payload_of_cores(alloc, schema, chunks, &entry.at)?;
    Ok(payload.as_slice() == own.as_slice())
}

/// The first page of the first payload whose overlap is wrong.
fn first_wrong(
    alloc: Global,
    schema: &Schema,
    entries: &[DirEntry],
    chunks: &[Chunk],
    payloads: &[Bytes],
) -> Result<Option<u32>, Memory>
    requires valid { IsValid schema.now }
    requires entries { AreEntriesOf schema.now entries.now }
    requires stored { AllByRecursion (IsStored schema.now) chunks.now }
    requires rise { NumbersRise (numbers chunks.now) }
    requires each { length payloads.now ≡ length entries.now }
    ensures { (file : Items ℕ) → payloads.now ≡ map (payload_in file) entries.now → IfOk result (λ page. overlap_fault page
        ≡ each (test_overlap file schema.now (core_rows schema.now.dimensions (overlaps schema.now.dimensions) chunks.now)) entries.now) }
{
    let mut left = payloads;
    for entry in entries {
        match left.split_first() {
            Some((payload, rest)) => {
                if !is_its_payload(alloc, schema, chunks, entry, payload)? {
                    return Ok(Some(first_page(entry)));
                }
                left = rest;
            }
            None => unreachable!(),
        }
    }
    Ok(None)
}

/// Reads the payloads of a version, and answers the first page of the first one whose overlap is
/// wrong.
pub(crate) fn first_wrong_overlap<D: Disk>(
    alloc: Global,
    file: &mut PageFile<D>,
    schema: &Schema,
    entries: &[DirEntry],
) -> Result<Option<u32>, CheckFault>
    requires valid { IsValid schema.now }
    requires entries { AreEntriesOf schema.now entries.now }
    requires rise { NumbersRise (entry_numbers entries.now) }
    ensures told { (seen : Items ℕ) → (D.moment file.old.disk).state.seen ≡ Some seen
        → MatchResult result (AreOverlaps seen schema.now entries.now) (λ fault. Stops fault (test_entries seen schema.now entries.now)) }
    ensures reads { OnlyReads (D.moment file.old.disk) (D.moment file.new.disk) }
    ensures cause { IfErr result (λ fault. HasCause fault (D.moment file.old.disk).state (D.moment file.new.disk).state) }
{
    match read_chunks(alloc, file, schema, entries) {
        Ok((chunks, payloads)) => {
            match first_wrong(
                alloc,
                schema,
                entries,
                chunks.as_slice(),
                payloads.as_slice(),
            ) {
                Ok(page) => Ok(page),
                Err(Memory) => Err(CheckFault::Memory),
            }
        }
        Err(fault) => Err(fault),
    }
}
