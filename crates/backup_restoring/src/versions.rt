//! Writing the payloads and the directory of a version.
ghost use Rattle.std.specs.Prelude.{◌≡◌, ◌+◌, ◌<◌, ◌≤◌, ◌^◌, length, map, sum_by, IfOk, IfErr};
ghost use Rattle.file_items.specs.Pages.{pages_needed};
ghost use Rattle.page_chain.specs.Pages.{page_size, HoldsBlob};
ghost use Rattle.chunk_map.specs.Spelling.{spelling};
ghost use Rattle.backup_format.specs.PiecePlaces.{piece_in, pieces_in, version_in};
ghost use Rattle.backup_restoring.specs.Restores.{payload_pages, version_pages};
ghost use Rattle.backup_restoring.specs.Inner.Layout.{pages_from, entry_at, blob_at, HoldsPayload, HoldsPieces};
ghost use Rattle.backup_restoring.specs.Inner.Writing.{AwaitsBase, Fails, Lays, Writes};

use crate::counting::payload_in;
use crate::fault::RestoreFault;
use crate::pages::write_bytes;
use afl_outside::Disk;
use backup_format::{PieceAt, VersionPiecesAt};
use cell_values::{Bytes, List, Memory, copy_numbers};
use chunk_map::{DirEntry, Directory, encode_directory};
use page_file::PageFile;
use std::alloc::Global;
use version_catalog::BlobAt;

/// The number of the commit that makes the database, behind that of a new file.
pub(crate) const SEQUENCE: u64 = 2;

/// Writes a payload to pages from one on, and answers its entry.
fn write_payload<D: Disk>(
    alloc: Global,
    file: &mut PageFile<D>,
    whole: &[u8],
    first: u32,
    piece: &PieceAt,
) -> Result<DirEntry, RestoreFault>
    requires awaits { AwaitsBase file.old.slots }
    requires least { 3 ≤ first }
    requires room { first + payload_pages (piece_in whole.now piece.now) < 2 ^ 32 }
    ensures entry { IfOk result (λ entry. entry ≡ entry_at first (piece_in whole.now piece.now)) }
    ensures written { IfOk result (λ _. Writes first (payload_pages (piece_in whole.now piece.now))
        (λ now. HoldsPayload now first (piece_in whole.now piece.now))
        file.old.slots file.new.slots (D.moment file.old.disk) (D.moment file.new.disk)) }
    ensures fault { IfErr result (λ fault. Fails fault (D.moment file.old.disk).state (D.moment file.new.disk).state) }
{
    let payload = payload_in(whole, piece);
    match write_bytes(alloc, file, first, payload) {
        Ok(pages) => Ok(DirEntry {
            at: copy_numbers(&piece.at),
            length: payload.len() as u64,
            birth: SEQUENCE,
            pages,
        }),
        Err(fault) => Err(fault),
    }
}

/// Writes payloads to pages from one on. Their entries are answered, and the page behind them.
fn write_payloads<D: Disk>(
    alloc: Global,
    file: &mut PageFile<D>,
    whole: &[u8],
    first: u32,
    pieces: &[PieceAt],
) -> Result<(List<DirEntry>, u32), RestoreFault>
    requires awaits { AwaitsBase file.old.slots }
    requires least { 3 ≤ first }
    requires room { first + sum_by payload_pages (pieces_in whole.now pieces.now) < 2 ^ 32 }
    ensures laid { IfOk result (λ x. Lays payload_pages entry_at HoldsPayload first (pieces_in whole.now pieces.now) x.1 x.0
        file.old.slots file.new.slots (D.moment file.old.disk) (D.moment file.new.disk)) }
    ensures fault { IfErr result (λ fault. Fails fault (D.moment file.old.disk).state (D.moment file.new.disk).state) }
{
    let mut entries = List::new(alloc);
    let mut next = first;
    for piece in pieces {
        match write_payload(alloc, file, whole, next, piece) {
            Ok(entry) => {
                next += entry.pages.len() as u32;
                match entries.push(entry) {
                    Ok(()) => {}
                    Err(Memory) => return Err(RestoreFault::Memory),
                }
            }
            Err(fault) => return Err(fault),
        }
    }
    Ok((entries, next))
}

/// The bytes of the directory of these entries.
fn directory_bytes(alloc: Global, entries: List<DirEntry>, dims: u32) -> Result<Bytes, Memory>
    ensures { IfOk result (λ bytes. bytes ≡ spelling (record { entries = entries })) }
{
    let directory = Directory { entries };
    match encode_directory(alloc, &directory, dims) {
        Ok(bytes) => Ok(bytes),
        Err(Memory) => Err(Memory),
    }
}

/// Writes these bytes of a directory to pages from one on. Where it lies is answered, and the page
/// behind it.
fn write_directory<D: Disk>(
    alloc: Global,
    file: &mut PageFile<D>,
    first: u32,
    bytes: &[u8],
) -> Result<(BlobAt, u32), RestoreFault>
    requires awaits { AwaitsBase file.old.slots }
    requires least { 3 ≤ first }
    requires room { first + pages_needed (length bytes.now) < 2 ^ 32 }
    ensures blob { IfOk result (λ x. x.0 ≡ record { length = length bytes.now; pages = pages_from first (pages_needed (length bytes.now)) }) }
    ensures next { IfOk result (λ x. x.1 ≡ first + pages_needed (length bytes.now)) }
    ensures written { IfOk result (λ _. Writes first (pages_needed (length bytes.now))
        (λ now. HoldsBlob page_size now (pages_from first (pages_needed (length bytes.now))) bytes.now)
        file.old.slots file.new.slots (D.moment file.old.disk) (D.moment file.new.disk)) }
    ensures fault { IfErr result (λ fault. Fails fault (D.moment file.old.disk).state (D.moment file.new.disk).state) }
{
    match write_bytes(alloc, file, first, bytes) {
        Ok(pages) => {
            let next = first + pages.len() as u32;
            let blob = BlobAt {
                length: bytes.len() as u64,
                pages,
            };
            Ok((blob, next))
        }
        Err(fault) => Err(fault),
    }
}

/// Writes the payloads of a version to pages from one on, and its directory behind them. Where the
/// directory lies is answered, and the page behind it.
fn write_version<D: Disk>(
    alloc: Global,
    file: &mut PageFile<D>,
    whole: &[u8],
    first: u32,
    dims: u32,
    version: &VersionPiecesAt,
) -> Result<(BlobAt, u32), RestoreFault>
    requires awaits { AwaitsBase file.old.slots }
    requires least { 3 ≤ first }
    requires room { first + version_pages (version_in whole.now version.now) < 2 ^ 32 }
    ensures blob { IfOk result (λ x. x.0 ≡ blob_at first (version_in whole.now version.now)) }
    ensures next { IfOk result (λ x. x.1 ≡ first + version_pages (version_in whole.now version.now)) }
    ensures written { IfOk result (λ _. Writes first (version_pages (version_in whole.now version.now))
        (λ now. HoldsPieces now first (version_in whole.now version.now))
        file.old.slots file.new.slots (D.moment file.old.disk) (D.moment file.new.disk)) }
    ensures fault { IfErr result (λ fault. Fails fault (D.moment file.old.disk).state (D.moment file.new.disk).state) }
{
    match write_payloads(alloc, file, whole, first, version.pieces.as_slice()) {
        Ok((entries, next)) => match directory_bytes(alloc, entries, dims) {
            Ok(bytes) => write_directory(alloc, file, next, bytes.as_slice()),
            Err(Memory) => Err(RestoreFault::Memory),
        },
        Err(fault) => Err(fault),
    }
}

/// Writes versions to pages from one on. Where their directories lie is answered, and the page
/// behind them.
pub(crate) fn write_versions<D: Disk>(
    alloc: Global,
    file: &mut PageFile<D>,
    whole: &[u8],
    first: u32,
    dims: u32,
    versions: &[VersionPiecesAt],
) -> Result<(List<BlobAt>, u32), RestoreFault>
    requires awaits { AwaitsBase file.old.slots }
    requires least { 3 ≤ first }
    requires room { first + sum_by version_pages (map (version_in whole.now) versions.now) < 2 ^ 32 }
    ensures laid { IfOk result (λ x. Lays version_pages blob_at HoldsPieces first (map (version_in whole.now) versions.now) x.1 x.0
        file.old.slots file.new.slots (D.moment file.old.disk) (D.moment file.new.disk)) }
    ensures fault { IfErr result (λ fault. Fails fault (D.moment file.old.disk).state (D.moment file.new.disk).state) }
{
    let mut directories = List::new(alloc);
    let mut next = first;
    for version in versions {
        match write_version(alloc, file, whole, next, dims, version) {
            Ok((directory, behind)) => {
                next = behind;
                match directories.push(directory) {
                    Ok(()) => {}
                    Err(Memory) => return Err(RestoreFault::Memory),
                }
            }
            Err(fault) => return Err(fault),
        }
    }
    Ok((directories, next))
}
