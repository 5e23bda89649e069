//! The version that a change makes.
ghost use Rattle.std.specs.Prelude.{◌≡◌, ◌++◌, [], ◌∷◌, Some, IfOk, IfSome, OnOk};
ghost use Rattle.std.specs.List.{flat_map};
ghost use Rattle.array_rows.specs.Boxes.{by_pairs};
ghost use Rattle.chunk_map.specs.Entries.{AreRising};
ghost use Rattle.chunk_map.specs.Spelling.{spelling as directory_spelling};
ghost use Rattle.file_meaning.specs.Opening.{version_pages};
ghost use Rattle.commit_pages.specs.Versions.{placed, all_placed, blob_at, settled, entry_of, entries_of, put_entries};
ghost use Rattle.commit_pages.specs.Versions.{directory_of, directory_bytes, version_in, new_version, payload_count, HasRisingNumbers};

use crate::pages::Written;
use crate::pages::written::{blob_count, first_pages, pages_behind, settle_all};
use cell_values::{Bytes, ChunkAt, List, MAX_DIMENSIONS, Memory, copy_numbers};
use chunk_map::{DirEntry, Directory, encode_directory, replaced};
use file_meaning::BlobAt;
use page_file::Placed;
use std::alloc::Global;

/// What a version adds to a file.
#[derive(Drop)]
pub struct NewVersion {
    /// The payloads that are written, and the directory.
    pub blobs: List<Placed>,
    pub directory: Option<Directory>,
    /// Where the directory lies.
    pub at: Option<BlobAt>,
    /// All pages of the version, those too that it shares with another one.
    pub pages: List<u32>,
}

fn entry(birth: u64, at: &ChunkAt, payload: &Placed) -> Result<DirEntry, Memory>
    ensures { IfOk result (λ entry. entry ≡ entry_of birth at.now payload.now) }
{
    Ok(DirEntry {
        at: copy_numbers(at),
        length: payload.bytes.len() as u64,
        birth,
        pages: payload.pages.copy()?,
    })
}

/// The entries of payloads, each for the chunk of its number.
fn entries(
    alloc: Global,
    birth: u64,
    numbers: &[ChunkAt],
    payloads: &[Placed],
) -> Result<List<DirEntry>, Memory>
    ensures { IfOk result (λ entries. entries ≡ by_pairs (entry_of birth) numbers.now payloads.now) }
{
    let count = numbers.len().min(payloads.len());
    let mut entries = List::with_capacity(alloc, count)?;
    for index in 0..count {
        entries.push(entry(birth, &numbers[index], &payloads[index])?)?;
    }
    Ok(entries)
}

fn written_entries(alloc: Global, written: &Written) -> Result<List<DirEntry>, Memory>
    ensures { IfOk result (λ entries. entries ≡ entries_of written.now) }
{
    let numbers = written.numbers.as_slice();
    entries(alloc, written.birth, numbers, written.payloads.as_slice())
}

/// The newest version's directory with these entries in their places.
fn with_entries(newest: &Directory, fresh: &List<DirEntry>) -> Result<Directory, Memory>
    requires fresh { AreRising fresh.now }
    requires newest { AreRising newest.now.entries }
    ensures { IfOk result (λ directory. directory ≡ record { entries = put_entries fresh.now newest.now.entries }) }
{
    replaced(newest, fresh.as_slice())
}

/// The directory of a version: of all its chunks, or the newest one with these in their places.
#[tactic(auto, unfolding(crate::specs::Versions::directory_of))]
fn directory_of(alloc: Global, written: &Written, newest: &Directory) -> Result<Directory, Memory>
    requires written { HasRisingNumbers written.now }
    requires newest { AreRising newest.now.entries }
    ensures { IfOk result (λ directory. directory ≡ directory_of written.now newest.now) }
{
    let fresh = written_entries(alloc, written)?;
    if written.whole {
        Ok(Directory { entries: fresh })
    } else {
        with_entries(newest, &fresh)
    }
}

/// A directory's bytes.
fn spelled(alloc: Global, directory: &Directory) -> Result<Bytes, Memory>
    ensures { IfOk result (λ bytes. bytes ≡ directory_spelling directory.now) }
{
    encode_directory(alloc, directory, MAX_DIMENSIONS as u32)
}

/// The bytes of a version's directory.
pub(crate) fn directory_bytes(
    alloc: Global,
    written: &Written,
    newest: &Directory,
) -> Result<Bytes, Memory>
    requires written { HasRisingNumbers written.now }
    requires newest { AreRising newest.now.entries }
    ensures { IfOk result (λ bytes. bytes ≡ directory_bytes written.now newest.now) }
{
    let directory = directory_of(alloc, written, newest)?;
    match spelled(alloc, &directory) {
        Ok(bytes) => {
            drop(directory);
            Ok(bytes)
        }
        Err(Memory) => {
            drop(directory);
            Err(Memory)
        }
    }
}

/// A directory in the first of these pages.
fn placed_directory(alloc: Global, directory: &Directory, pages: &[u32]) -> Result<Placed, Memory>
    ensures { IfOk result (λ own. own ≡ placed pages.now (directory_spelling directory.now)) }
{
    let bytes = spelled(alloc, directory)?;
    let pages = first_pages(alloc, pages, blob_count(&bytes))?;
    Ok(Placed { pages, bytes })
}

fn blob_at(one: &Placed) -> Result<BlobAt, Memory>
    ensures { IfOk result (λ at. at ≡ blob_at one.now) }
{
    Ok(BlobAt {
        length: one.bytes.len() as u64,
        pages: one.pages.copy()?,
    })
}

/// Adds the pages of payloads.
fn push_pages(pages: &mut List<u32>, entries: &[DirEntry]) -> Result<(), Memory>
    ensures { OnOk result (pages.new ≡ pages.old ++ flat_map (λ entry. entry.pages) entries.now) }
{
    for entry in entries {
        pages.extend(entry.pages.as_slice())?;
    }
    Ok(())
}

/// The pages of a version, whose directory lies here.
fn all_pages(at: &BlobAt, directory: &Directory) -> Result<List<u32>, Memory>
    ensures { IfOk result (λ pages. pages ≡ version_pages at.now directory.now) }
{
    let mut pages = at.pages.copy()?;
    push_pages(&mut pages, directory.entries.as_slice())?;
    Ok(pages)
}

/// A new version's directory, as a blob too, where it lies, and all pages of the version.
#[derive(Drop)]
struct Own {
    directory: Directory,
    blob: Placed,
    at: BlobAt,
    pages: List<u32>,
}

/// Where a directory lies, and all pages of its version.
fn found_in(directory: &Directory, blob: &Placed) -> Result<(BlobAt, List<u32>), Memory>
    ensures at { IfOk result (λ found. found.0 ≡ blob_at blob.now) }
    ensures pages { IfOk result (λ found. found.1 ≡ version_pages (blob_at blob.now) directory.now) }
{
    let at = blob_at(blob)?;
    let pages = all_pages(&at, directory)?;
    Ok((at, pages))
}

/// A directory in the first of these pages.
fn own_of(
    alloc: Global,
    directory: &Directory,
    pages: &[u32],
) -> Result<(Placed, BlobAt, List<u32>), Memory>
    ensures blob { IfOk result (λ own. own.0 ≡ placed pages.now (directory_spelling directory.now)) }
    ensures at { IfOk result (λ own. own.1 ≡ blob_at (placed pages.now (directory_spelling directory.now))) }
    ensures pages { IfOk result (λ own. own.2 ≡ version_pages (blob_at (placed pages.now (directory_spelling directory.now))) directory.now) }
{
    let blob = placed_directory(alloc, directory, pages)?;
    match found_in(directory, &blob) {
        Ok((at, pages)) => Ok((blob, at, pages)),
        Err(Memory) => {
            drop(blob);
            Err(Memory)
        }
    }
}

/// The directory of chunks that lie in pages, in the first of these.
fn own_directory(
    alloc: Global,
    written: &Written,
    newest: &Directory,
    pages: &[u32],
) -> Result<Own, Memory>
    requires written { HasRisingNumbers written.now }
    requires newest { AreRising newest.now.entries }
    ensures directory { IfOk result (λ own. own.directory ≡ directory_of written.now newest.now) }
    ensures blob { IfOk result (λ own. own.blob ≡ placed pages.now (directory_bytes written.now newest.now)) }
    ensures at { IfOk result (λ own. own.at ≡ blob_at (placed pages.now (directory_bytes written.now newest.now))) }
    ensures pages { IfOk result (λ own. own.pages
        ≡ version_pages (blob_at (placed pages.now (directory_bytes written.now newest.now))) (directory_of written.now newest.now)) }
{
    let directory = directory_of(alloc, written, newest)?;
    match own_of(alloc, &directory, pages) {
        Ok((blob, at, pages)) => Ok(Own {
            directory,
            blob,
            at,
            pages,
        }),
        Err(Memory) => {
            drop(directory);
            Err(Memory)
        }
    }
}

/// The version of these parts.
fn joined(payloads: List<Placed>, own: Own) -> Result<NewVersion, Memory>
    ensures { IfOk result (λ version. version
        ≡ record { blobs = payloads ++ own.blob ∷ []; directory = Some own.directory; at = Some own.at; pages = own.pages }) }
{
    let mut blobs = payloads;
    let Own {
        directory,
        blob,
        at,
        pages,
    } = own;
    match blobs.push(blob) {
        Ok(()) => Ok(NewVersion {
            blobs,
            directory: Some(directory),
            at: Some(at),
            pages,
        }),
        Err(Memory) => {
            drop(blobs);
            drop(directory);
            drop(at);
            drop(pages);
            Err(Memory)
        }
    }
}

/// The version of chunks that lie in pages, with its directory in the first of these.
#[tactic(auto, unfolding(crate::specs::Versions::version_in))]
fn version_of(
    alloc: Global,
    written: Written,
    newest: &Directory,
    pages: &[u32],
) -> Result<NewVersion, Memory>
    requires written { HasRisingNumbers written }
    requires newest { AreRising newest.now.entries }
    ensures { IfOk result (λ version. version ≡ version_in pages.now written newest.now) }
{
    match own_directory(alloc, &written, newest, pages) {
        Ok(own) => joined(written.payloads, own),
        Err(Memory) => {
            drop(written);
            Err(Memory)
        }
    }
}

/// Puts the payloads into the first of these pages.
fn settle_payloads(
    alloc: Global,
    payloads: List<Placed>,
    pages: &[u32],
) -> Result<List<Placed>, Memory>
    ensures { IfOk result (λ settled. settled ≡ all_placed pages.now payloads) }
{
    let mut items = payloads.into_vec();
    match settle_all(alloc, items.as_mut_slice(), pages) {
        Ok(()) => Ok(List::from_vec(items)),
        Err(Memory) => {
            drop(items);
            Err(Memory)
        }
    }
}

/// The same chunks, with their payloads in the first of these pages.
fn settled(alloc: Global, written: Written, pages: &[u32]) -> Result<Written, Memory>
    ensures { IfOk result (λ other. other ≡ settled pages.now written) }
{
    let Written {
        whole,
        birth,
        numbers,
        payloads,
    } = written;
    match settle_payloads(alloc, payloads, pages) {
        Ok(payloads) => Ok(Written {
            whole,
            birth,
            numbers,
            payloads,
        }),
        Err(Memory) => {
            drop(numbers);
            Err(Memory)
        }
    }
}

fn settled_version(
    alloc: Global,
    written: Written,
    newest: &Directory,
    pages: &[u32],
    behind: &[u32],
) -> Result<NewVersion, Memory>
    requires written { HasRisingNumbers written }
    requires newest { AreRising newest.now.entries }
    ensures { IfOk result (λ version. version ≡ version_in behind.now (settled pages.now written) newest.now) }
{
    match settled(alloc, written, pages) {
        Ok(written) => version_of(alloc, written, newest, behind),
        Err(Memory) => Err(Memory),
    }
}

/// The version of the chunks that are written, in the first of these pages, if there are any.
pub(crate) fn new_version(
    alloc: Global,
    written: Option<Written>,
    newest: &Directory,
    pages: &[u32],
    count: usize,
) -> Result<NewVersion, Memory>
    requires written { IfSome written HasRisingNumbers }
    requires newest { AreRising newest.now.entries }
    requires count { count ≡ payload_count written }
    ensures { IfOk result (λ version. version ≡ new_version pages.now written newest.now) }
{
    match written {
        Some(written) => settled_version(alloc, written, newest, pages, pages_behind(pages, count)),
        None => Ok(NewVersion {
            blobs: List::new(alloc),
            directory: None,
            at: None,
            pages: List::new(alloc),
        }),
    }
}
