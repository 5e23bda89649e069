//! How many pages a database takes in a new file, and how many bytes its catalogue has.
ghost use Rattle.std.specs.Prelude.{◌≡◌, ◌+◌, ◌*◌, length, map, sum_by, IfOk};
ghost use Rattle.file_items.specs.Spelling.{spell_name, spell_schema};
ghost use Rattle.file_items.specs.Pages.{pages_needed};
ghost use Rattle.backup_format.specs.PiecePlaces.{piece_in, pieces_in, version_in, array_in, arrays_in, slice_at};
ghost use Rattle.backup_restoring.specs.Restores.{array_pages, array_length, payload_pages, restore_pages, version_pages, version_length, entry_length};

use backup_format::{ArrayAt, PieceAt, VersionPiecesAt};
use cell_values::{Bytes, Memory};
use file_items::{put_name, put_schema};
use page_chain::{blob_pages, chain_pages};
use std::alloc::Global;

/// Some pages, and some bytes.
#[derive(Clone, Copy)]
pub(crate) struct Extent {
    pub(crate) pages: u64,
    pub(crate) bytes: u64,
}

/// A sum. One that passes 64 bits is of more bytes than memory can name.
fn sum(count: u64, more: u64) -> Result<u64, Memory>
    ensures { IfOk result (λ sum. sum ≡ count + more) }
{
    match count.checked_add(more) {
        Some(sum) => Ok(sum),
        None => Err(Memory),
    }
}

/// More pages and more bytes.
fn add(extent: Extent, pages: u64, bytes: u64) -> Result<Extent, Memory>
    ensures { IfOk result (λ both. (both.pages ≡ extent.pages + pages) × (both.bytes ≡ extent.bytes + bytes)) }
{
    Ok(Extent {
        pages: sum(extent.pages, pages)?,
        bytes: sum(extent.bytes, bytes)?,
    })
}

/// How many pages some bytes need.
fn pages_needed(bytes: u64) -> u64
    ensures { result ≡ pages_needed bytes }
{
    blob_pages(bytes)
}

/// The payload of a piece.
pub(crate) fn payload_in<'a>(whole: &'a [u8], piece: &PieceAt) -> &'a [u8]
    ensures { result.now ≡ slice_at whole.now piece.now.left piece.now.size }
{
    let (_, tail) = whole.split_at(whole.len().saturating_sub(piece.left));
    if piece.size < tail.len() {
        tail.split_at(piece.size).0
    } else {
        tail
    }
}

/// Four times as much.
fn four_times(count: u64) -> Result<u64, Memory>
    ensures { IfOk result (λ all. all ≡ 4 * count) }
{
    match count.checked_mul(4) {
        Some(all) => Ok(all),
        None => Err(Memory),
    }
}

/// The pages of a payload, and the bytes of its entry.
fn piece_extent(whole: &[u8], piece: &PieceAt) -> Result<Extent, Memory>
    ensures pages { IfOk result (λ x. x.pages ≡ payload_pages (piece_in whole.now piece.now)) }
    ensures bytes { IfOk result (λ x. x.bytes ≡ entry_length (piece_in whole.now piece.now)) }
{
    let pages = pages_needed(payload_in(whole, piece).len() as u64);
    let numbers = piece.at.as_slice().len() as u64;
    let own = sum(8 * numbers, 20)?;
    let bytes = sum(own, four_times(pages)?)?;
    Ok(Extent { pages, bytes })
}

/// The pages of some payloads, and the bytes of their entries.
fn pieces_extent(whole: &[u8], pieces: &[PieceAt]) -> Result<Extent, Memory>
    ensures pages { IfOk result (λ x. x.pages ≡ sum_by payload_pages (pieces_in whole.now pieces.now)) }
    ensures bytes { IfOk result (λ x. x.bytes ≡ sum_by entry_length (pieces_in whole.now pieces.now)) }
{
    let mut extent = Extent { pages: 0, bytes: 0 };
    for piece in pieces {
        let one = piece_extent(whole, piece)?;
        extent = add(extent, one.pages, one.bytes)?;
    }
    Ok(extent)
}

/// The pages of a version, and its bytes in a catalogue.
fn version_extent(whole: &[u8], version: &VersionPiecesAt) -> Result<Extent, Memory>
    ensures pages { IfOk result (λ x. x.pages ≡ version_pages (version_in whole.now version.now)) }
    ensures bytes { IfOk result (λ x. x.bytes ≡ version_length (version_in whole.now version.now)) }
{
    let payloads = pieces_extent(whole, version.pieces.as_slice())?;
    let directory = pages_needed(sum(8, payloads.bytes)?);
    Ok(Extent {
        pages: sum(payloads.pages, directory)?,
        bytes: sum(16, four_times(directory)?)?,
    })
}

/// The pages of some versions, and their bytes in a catalogue.
fn versions_extent(whole: &[u8], versions: &[VersionPiecesAt]) -> Result<Extent, Memory>
    ensures pages { IfOk result (λ x. x.pages ≡ sum_by version_pages (map (version_in whole.now) versions.now)) }
    ensures bytes { IfOk result (λ x. x.bytes ≡ sum_by version_length (map (version_in whole.now) versions.now)) }
{
    let mut extent = Extent { pages: 0, bytes: 0 };
    for version in versions {
        let one = version_extent(whole, version)?;
        extent = add(extent, one.pages, one.bytes)?;
    }
    Ok(extent)
}

/// The bytes of an array's name and schema in a catalogue.
fn head_length(alloc: Global, array: &ArrayAt) -> Result<u64, Memory>
    ensures { IfOk result (λ n. n ≡ length (spell_name array.now.name) + length (spell_schema array.now.schema)) }
{
    let mut head = Bytes::new(alloc);
    put_name(&mut head, &array.name)?;
    put_schema(&mut head, &array.schema)?;
    Ok(head.len() as u64)
}

/// The pages of an array's versions, and its bytes in a catalogue.
fn array_extent(alloc: Global, whole: &[u8], array: &ArrayAt) -> Result<Extent, Memory>
    ensures pages { IfOk result (λ x. x.pages ≡ array_pages (array_in whole.now array.now)) }
    ensures bytes { IfOk result (λ x. x.bytes ≡ array_length (array_in whole.now array.now)) }
{
    let head = sum(head_length(alloc, array)?, 8)?;
    let versions = versions_extent(whole, array.versions.as_slice())?;
    Ok(Extent {
        pages: versions.pages,
        bytes: sum(head, versions.bytes)?,
    })
}

/// The pages of some arrays' versions, and their bytes in a catalogue.
fn arrays_extent(alloc: Global, whole: &[u8], arrays: &[ArrayAt]) -> Result<Extent, Memory>
    ensures pages { IfOk result (λ x. x.pages ≡ sum_by array_pages (map (array_in whole.now) arrays.now)) }
    ensures bytes { IfOk result (λ x. x.bytes ≡ sum_by array_length (map (array_in whole.now) arrays.now)) }
{
    let mut extent = Extent { pages: 0, bytes: 0 };
    for array in arrays {
        let one = array_extent(alloc, whole, array)?;
        extent = add(extent, one.pages, one.bytes)?;
    }
    Ok(extent)
}

/// How many pages a database of these arrays takes in a new file.
pub(crate) fn restore_pages(alloc: Global, whole: &[u8], arrays: &[ArrayAt]) -> Result<u64, Memory>
    ensures { IfOk result (λ count. count ≡ restore_pages (arrays_in whole.now arrays.now)) }
{
    let extent = arrays_extent(alloc, whole, arrays)?;
    let chain = chain_pages(sum(4, extent.bytes)?);
    sum(sum(extent.pages, chain)?, 1)
}
