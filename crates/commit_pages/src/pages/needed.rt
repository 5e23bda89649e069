//! How many pages a commit takes.
ghost use Rattle.std.specs.Prelude.{◌≡◌, ◌+◌, length, Some, IfOk, IfSome, IsTrue};
ghost use Rattle.chunk_map.specs.Entries.{AreRising};
ghost use Rattle.plan_changes.specs.Allowed.{names_allow};
ghost use Rattle.file_meaning.specs.Catalogs.{names_in};
ghost use Rattle.file_meaning.specs.Spelling.{spell_record, spelling};
ghost use Rattle.file_meaning.specs.Changed.{has_its_directory};
ghost use Rattle.page_file.specs.Commits.{pages_of};
ghost use Rattle.event_core.specs.Apart.{makes_version};
ghost use Rattle.std.specs.Option.{is_some};
ghost use Rattle.commit_pages.specs.Versions.{blob_at, drafted, directory_bytes, draft_at, count_at, payload_count, version_needs, HasRisingNumbers};
ghost use Rattle.commit_pages.specs.Commits.{chain_count, record_bytes, catalog_bytes, record_needs, base_needs};

use crate::pages::Written;
use crate::pages::version::directory_bytes;
use crate::pages::written::drafted_pages;
use cell_values::{Bytes, Memory};
use chunk_map::Directory;
use file_meaning::{
    BlobAt, Catalog, encode_catalog, encode_record, let_go_catalog, record_of, with_change,
};
use page_chain::chain_pages;
use page_file::Placed;
use plan_changes::Change;
use std::alloc::Global;

/// A sum. One that passes 64 bits is of more pages than memory can name.
fn sum(count: u64, more: u64) -> Result<u64, Memory>
    ensures { IfOk result (λ sum. sum ≡ count + more) }
{
    match count.checked_add(more) {
        Some(sum) => Ok(sum),
        None => Err(Memory),
    }
}

/// How many pages blobs have.
pub(crate) fn count_pages(blobs: &[Placed]) -> Result<u64, Memory>
    ensures { IfOk result (λ count. count ≡ length (pages_of blobs.now)) }
{
    let mut count = 0;
    for blob in blobs {
        count = sum(count, blob.pages.len() as u64)?;
    }
    Ok(count)
}

/// How many pages the payloads have.
pub(crate) fn payload_count(written: &Option<Written>) -> Result<u64, Memory>
    ensures { IfOk result (λ count. count ≡ payload_count written.now) }
{
    match written {
        Some(written) => count_pages(written.payloads.as_slice()),
        None => Ok(0),
    }
}

/// Where a directory lies before its pages are known.
fn drafted_directory(alloc: Global, written: &Written, newest: &Directory) -> Result<BlobAt, Memory>
    requires written { HasRisingNumbers written.now }
    requires newest { AreRising newest.now.entries }
    ensures { IfOk result (λ at. at ≡ blob_at (drafted (directory_bytes written.now newest.now))) }
{
    let bytes = directory_bytes(alloc, written, newest)?;
    Ok(BlobAt {
        length: bytes.len() as u64,
        pages: drafted_pages(alloc, &bytes)?,
    })
}

fn draft_at(
    alloc: Global,
    written: &Option<Written>,
    newest: &Directory,
) -> Result<Option<BlobAt>, Memory>
    requires written { IfSome written.now HasRisingNumbers }
    requires newest { AreRising newest.now.entries }
    ensures { IfOk result (λ at. at ≡ draft_at written.now newest.now) }
{
    match written {
        Some(written) => Ok(Some(drafted_directory(alloc, written, newest)?)),
        None => Ok(None),
    }
}

/// How many pages a directory has, where there is one.
fn count_at(at: &Option<BlobAt>) -> u64
    ensures { result ≡ count_at at.now }
{
    match at {
        Some(at) => at.pages.len() as u64,
        None => 0,
    }
}

/// How many pages a version takes, whose directory lies here before its pages are known.
#[tactic(auto, using(crate::proofs::Needs::needs_are))]
fn version_needs(
    written: &Option<Written>,
    newest: &Directory,
    at: &Option<BlobAt>,
) -> Result<u64, Memory>
    requires { at.now ≡ draft_at written.now newest.now }
    ensures { IfOk result (λ count. count ≡ version_needs written.now newest.now) }
{
    sum(payload_count(written)?, count_at(at))
}

/// The bytes of a change's record, whose directory lies here.
pub(crate) fn record_bytes(
    alloc: Global,
    catalog: &Catalog,
    change: &Change,
    at: Option<BlobAt>,
) -> Result<Bytes, Memory>
    requires names { IsTrue (names_allow (names_in catalog.now) change.now) }
    requires directory { IsTrue (has_its_directory change.now at) }
    ensures { IfOk result (λ bytes. bytes ≡ record_bytes catalog.now change.now at) }
{
    let entry = record_of(catalog, change, at)?;
    match encode_record(alloc, &entry) {
        Ok(bytes) => {
            drop(entry);
            Ok(bytes)
        }
        Err(Memory) => {
            drop(entry);
            Err(Memory)
        }
    }
}

/// How many pages the record takes.
fn count_record(
    alloc: Global,
    catalog: &Catalog,
    change: &Change,
    at: Option<BlobAt>,
) -> Result<u64, Memory>
    requires names { IsTrue (names_allow (names_in catalog.now) change.now) }
    requires directory { IsTrue (has_its_directory change.now at) }
    ensures { IfOk result (λ count. count ≡ chain_count (record_bytes catalog.now change.now at)) }
{
    let bytes = record_bytes(alloc, catalog, change, at)?;
    Ok(chain_pages(bytes.len() as u64))
}

/// The next catalogue's bytes.
pub(crate) fn catalog_bytes(
    alloc: Global,
    catalog: &Catalog,
    change: &Change,
    at: Option<BlobAt>,
) -> Result<Bytes, Memory>
    requires names { IsTrue (names_allow (names_in catalog.now) change.now) }
    requires directory { IsTrue (has_its_directory change.now at) }
    ensures { IfOk result (λ bytes. bytes ≡ catalog_bytes catalog.now change.now at) }
{
    let next = with_change(catalog, change, at)?;
    match encode_catalog(alloc, &next) {
        Ok(bytes) => {
            let_go_catalog(next);
            Ok(bytes)
        }
        Err(Memory) => {
            let_go_catalog(next);
            Err(Memory)
        }
    }
}

/// How many pages the next catalogue takes.
fn count_catalog(
    alloc: Global,
    catalog: &Catalog,
    change: &Change,
    at: Option<BlobAt>,
) -> Result<u64, Memory>
    requires names { IsTrue (names_allow (names_in catalog.now) change.now) }
    requires directory { IsTrue (has_its_directory change.now at) }
    ensures { IfOk result (λ count. count ≡ chain_count (catalog_bytes catalog.now change.now at)) }
{
    let bytes = catalog_bytes(alloc, catalog, change, at)?;
    Ok(chain_pages(bytes.len() as u64))
}

/// How many pages a commit of a record takes, whichever they are.
#[tactic(auto, unfolding(crate::specs::Commits::record_needs))]
pub fn needed_for_record(
    alloc: Global,
    catalog: &Catalog,
    newest: &Directory,
    change: &Change,
    written: &Option<Written>,
) -> Result<u64, Memory>
    requires names { IsTrue (names_allow (names_in catalog.now) change.now) }
    requires comes { is_some written.now ≡ makes_version change.now }
    requires written { IfSome written.now HasRisingNumbers }
    requires newest { AreRising newest.now.entries }
    ensures { IfOk result (λ count. count ≡ record_needs catalog.now newest.now change.now written.now) }
{
    let at = draft_at(alloc, written, newest)?;
    match version_needs(written, newest, &at) {
        Ok(count) => sum(count, count_record(alloc, catalog, change, at)?),
        Err(Memory) => {
            drop(at);
            Err(Memory)
        }
    }
}

/// How many pages a commit of a new base takes beside its log page, whichever they are.
#[tactic(auto, unfolding(crate::specs::Commits::base_needs))]
pub fn needed_for_base(
    alloc: Global,
    catalog: &Catalog,
    newest: &Directory,
    change: &Change,
    written: &Option<Written>,
) -> Result<u64, Memory>
    requires names { IsTrue (names_allow (names_in catalog.now) change.now) }
    requires comes { is_some written.now ≡ makes_version change.now }
    requires written { IfSome written.now HasRisingNumbers }
    requires newest { AreRising newest.now.entries }
    ensures { IfOk result (λ count. count ≡ base_needs catalog.now newest.now change.now written.now) }
{
    let at = draft_at(alloc, written, newest)?;
    match version_needs(written, newest, &at) {
        Ok(count) => sum(count, count_catalog(alloc, catalog, change, at)?),
        Err(Memory) => {
            drop(at);
            Err(Memory)
        }
    }
}
