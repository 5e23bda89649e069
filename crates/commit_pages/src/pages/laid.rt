//! What a commit writes, and what there is after it.
ghost use Rattle.std.specs.Prelude.{◌≡◌, ◌<◌, ◌^◌, ℕ, ◌++◌, [], ◌∷◌, length, IfOk, IfSome, IsTrue};
ghost use Rattle.std.specs.List.{AllByRecursion};
ghost use Rattle.chunk_map.specs.Entries.{AreRising};
ghost use Rattle.chunk_map.specs.Spelling.{IsDirectory};
ghost use Rattle.plan_changes.specs.Allowed.{names_allow};
ghost use Rattle.file_meaning.specs.Catalogs.{names_in};
ghost use Rattle.file_meaning.specs.Changed.{after_change, has_its_directory, IsItsBlob};
ghost use Rattle.page_file.specs.Commits.{base_pages, commit_pages, IsBlobSized, IsChainSized};
ghost use Rattle.commit_pages.specs.Versions.{new_version, HasRisingNumbers, IsWritten, CanBeListed};
ghost use Rattle.event_core.specs.Apart.{makes_version};
ghost use Rattle.std.specs.Option.{is_some};
ghost use Rattle.commit_pages.specs.Commits.{chain_in, record_bytes, catalog_bytes, rest_of, with_record, with_base};
ghost use Rattle.commit_pages.specs.Commits.{record_needs, base_needs, record_laid, base_laid};

use crate::pages::Written;
use crate::pages::needed::{catalog_bytes, count_pages, payload_count, record_bytes};
use crate::pages::version::{NewVersion, new_version};
use crate::pages::written::{chain_count, first_pages, pages_behind};
use cell_values::{Bytes, List, Memory};
use chunk_map::Directory;
use event_core::Used;
use file_meaning::{BlobAt, Catalog, with_change};
use page_file::Placed;
use plan_changes::Change;
use std::alloc::Global;

/// What a commit writes, and what there is after it.
#[derive(Drop)]
pub struct Laid {
    /// The payloads that are written, and the directory.
    pub blobs: List<Placed>,
    /// The record, or the next catalogue.
    pub chain: Placed,
    /// That of the version which the change makes.
    pub directory: Option<Directory>,
    /// Where it lies.
    pub at: Option<BlobAt>,
    /// The next catalogue.
    pub catalog: Catalog,
    pub used: Used,
}

/// What there is of the catalogue after a commit.
#[derive(Drop)]
struct Next {
    chain: Placed,
    catalog: Catalog,
    pages: List<u32>,
}

/// Lets go what a commit writes.
pub fn let_go_pages(blobs: List<Placed>, chain: Placed) {
    drop(blobs);
    drop(chain);
}

/// Bytes in the first of these pages, as a chain.
fn chain_in(alloc: Global, bytes: Bytes, pages: &[u32]) -> Result<Placed, Memory>
    ensures { IfOk result (λ chain. chain ≡ chain_in pages.now bytes) }
{
    let pages = first_pages(alloc, pages, chain_count(&bytes))?;
    Ok(Placed { pages, bytes })
}

fn copy_at(at: &Option<BlobAt>) -> Result<Option<BlobAt>, Memory>
    ensures { IfOk result (λ copy. copy ≡ at.now) }
{
    match at {
        Some(at) => Ok(Some(at.copy()?)),
        None => Ok(None),
    }
}

fn next_catalog(catalog: &Catalog, change: &Change, at: &Option<BlobAt>) -> Result<Catalog, Memory>
    requires names { IsTrue (names_allow (names_in catalog.now) change.now) }
    requires directory { IsTrue (has_its_directory change.now at.now) }
    ensures { IfOk result (λ next. next ≡ after_change catalog.now change.now at.now) }
{
    with_change(catalog, change, copy_at(at)?)
}

/// The change's record as a chain.
fn record_chain(
    alloc: Global,
    catalog: &Catalog,
    change: &Change,
    at: &Option<BlobAt>,
    pages: &[u32],
) -> Result<Placed, Memory>
    requires names { IsTrue (names_allow (names_in catalog.now) change.now) }
    requires directory { IsTrue (has_its_directory change.now at.now) }
    ensures { IfOk result (λ chain. chain ≡ chain_in pages.now (record_bytes catalog.now change.now at.now)) }
{
    let bytes = record_bytes(alloc, catalog, change, copy_at(at)?)?;
    chain_in(alloc, bytes, pages)
}

/// The next catalogue as a chain.
fn catalog_chain(
    alloc: Global,
    catalog: &Catalog,
    change: &Change,
    at: &Option<BlobAt>,
    pages: &[u32],
) -> Result<Placed, Memory>
    requires names { IsTrue (names_allow (names_in catalog.now) change.now) }
    requires directory { IsTrue (has_its_directory change.now at.now) }
    ensures { IfOk result (λ chain. chain ≡ chain_in pages.now (catalog_bytes catalog.now change.now at.now)) }
{
    let bytes = catalog_bytes(alloc, catalog, change, copy_at(at)?)?;
    chain_in(alloc, bytes, pages)
}

/// Some pages, and others behind them.
fn both(alloc: Global, pages: &[u32], more: &[u32]) -> Result<List<u32>, Memory>
    ensures { IfOk result (λ all. all ≡ pages.now ++ more.now) }
{
    let mut all = List::from_slice(alloc, pages)?;
    all.extend(more)?;
    Ok(all)
}

/// The next catalogue, where it is told by this chain, and its pages.
fn next_of(
    catalog: &Catalog,
    change: &Change,
    at: &Option<BlobAt>,
    chain: Placed,
    pages: List<u32>,
) -> Result<Next, Memory>
    requires names { IsTrue (names_allow (names_in catalog.now) change.now) }
    requires directory { IsTrue (has_its_directory change.now at.now) }
    ensures { IfOk result (λ next. next ≡ record { chain = chain; catalog = after_change catalog.now change.now at.now; pages = pages }) }
{
    match next_catalog(catalog, change, at) {
        Ok(catalog) => Ok(Next {
            chain,
            catalog,
            pages,
        }),
        Err(Memory) => {
            drop(chain);
            drop(pages);
            Err(Memory)
        }
    }
}

/// The change's record, and the pages of the catalogue with its own.
fn recorded(
    alloc: Global,
    catalog: &Catalog,
    catalogue: &[u32],
    change: &Change,
    at: &Option<BlobAt>,
    pages: &[u32],
) -> Result<(Placed, List<u32>), Memory>
    requires names { IsTrue (names_allow (names_in catalog.now) change.now) }
    requires directory { IsTrue (has_its_directory change.now at.now) }
    ensures chain { IfOk result (λ parts. parts.0 ≡ chain_in pages.now (record_bytes catalog.now change.now at.now)) }
    ensures pages { IfOk result (λ parts. parts.1 ≡ catalogue.now ++ (chain_in pages.now (record_bytes catalog.now change.now at.now)).pages) }
{
    let chain = record_chain(alloc, catalog, change, at, pages)?;
    match both(alloc, catalogue, chain.pages.as_slice()) {
        Ok(all) => Ok((chain, all)),
        Err(Memory) => {
            drop(chain);
            Err(Memory)
        }
    }
}

/// The next catalogue's bytes, and its pages with the log's.
fn based(
    alloc: Global,
    catalog: &Catalog,
    change: &Change,
    at: &Option<BlobAt>,
    pages: &[u32],
    log: u32,
) -> Result<(Placed, List<u32>), Memory>
    requires names { IsTrue (names_allow (names_in catalog.now) change.now) }
    requires directory { IsTrue (has_its_directory change.now at.now) }
    ensures chain { IfOk result (λ parts. parts.0 ≡ chain_in pages.now (catalog_bytes catalog.now change.now at.now)) }
    ensures pages { IfOk result (λ parts. parts.1 ≡ (chain_in pages.now (catalog_bytes catalog.now change.now at.now)).pages ++ log ∷ []) }
{
    let chain = catalog_chain(alloc, catalog, change, at, pages)?;
    match both(alloc, chain.pages.as_slice(), &[log]) {
        Ok(all) => Ok((chain, all)),
        Err(Memory) => {
            drop(chain);
            Err(Memory)
        }
    }
}

/// The pages behind those of a version's blobs.
fn behind<'a>(version: &NewVersion, pages: &'a [u32]) -> Result<&'a [u32], Memory>
    ensures { IfOk result (λ rest. rest.now ≡ rest_of version.now pages.now) }
{
    let count = count_pages(version.blobs.as_slice())?;
    Ok(pages_behind(pages, count as usize))
}

fn next_by_record(
    alloc: Global,
    catalog: &Catalog,
    catalogue: &[u32],
    change: &Change,
    version: &NewVersion,
    pages: &[u32],
) -> Result<Next, Memory>
    requires names { IsTrue (names_allow (names_in catalog.now) change.now) }
    requires directory { IsTrue (has_its_directory change.now version.now.at) }
    ensures { IfOk result (λ next. next ≡ record {
      chain = chain_in (rest_of version.now pages.now) (record_bytes catalog.now change.now version.now.at);
      catalog = after_change catalog.now change.now version.now.at;
      pages = catalogue.now ++ (chain_in (rest_of version.now pages.now) (record_bytes catalog.now change.now version.now.at)).pages;
    }) }
{
    let rest = behind(version, pages)?;
    match recorded(alloc, catalog, catalogue, change, &version.at, rest) {
        Ok((chain, all)) => next_of(catalog, change, &version.at, chain, all),
        Err(Memory) => Err(Memory),
    }
}

fn next_by_base(
    alloc: Global,
    catalog: &Catalog,
    change: &Change,
    version: &NewVersion,
    pages: &[u32],
    log: u32,
) -> Result<Next, Memory>
    requires names { IsTrue (names_allow (names_in catalog.now) change.now) }
    requires directory { IsTrue (has_its_directory change.now version.now.at) }
    ensures { IfOk result (λ next. next ≡ record {
      chain = chain_in (rest_of version.now pages.now) (catalog_bytes catalog.now change.now version.now.at);
      catalog = after_change catalog.now change.now version.now.at;
      pages = (chain_in (rest_of version.now pages.now) (catalog_bytes catalog.now change.now version.now.at)).pages ++ log ∷ [];
    }) }
{
    let rest = behind(version, pages)?;
    match based(alloc, catalog, change, &version.at, rest, log) {
        Ok((chain, all)) => next_of(catalog, change, &version.at, chain, all),
        Err(Memory) => Err(Memory),
    }
}

/// A commit of these parts.
fn joined(version: NewVersion, next: Next) -> Laid
    ensures { result ≡ record {
      blobs = version.blobs;
      chain = next.chain;
      directory = version.directory;
      at = version.at;
      catalog = next.catalog;
      used = record { version = version.pages; catalogue = next.pages };
    } }
{
    let NewVersion {
        blobs,
        directory,
        at,
        pages,
    } = version;
    let Next {
        chain,
        catalog,
        pages: catalogue,
    } = next;
    Laid {
        blobs,
        chain,
        directory,
        at,
        catalog,
        used: Used {
            version: pages,
            catalogue,
        },
    }
}

/// A commit of a record with this version.
fn with_record(
    alloc: Global,
    catalog: &Catalog,
    catalogue: &[u32],
    change: &Change,
    version: NewVersion,
    pages: &[u32],
) -> Result<Laid, Memory>
    requires names { IsTrue (names_allow (names_in catalog.now) change.now) }
    requires directory { IsTrue (has_its_directory change.now version.at) }
    ensures { IfOk result (λ laid. laid ≡ with_record catalog.now catalogue.now change.now version pages.now) }
{
    match next_by_record(alloc, catalog, catalogue, change, &version, pages) {
        Ok(next) => Ok(joined(version, next)),
        Err(Memory) => {
            drop(version);
            Err(Memory)
        }
    }
}

/// A commit of a new base with this version.
fn with_base(
    alloc: Global,
    catalog: &Catalog,
    change: &Change,
    version: NewVersion,
    pages: &[u32],
    log: u32,
) -> Result<Laid, Memory>
    requires names { IsTrue (names_allow (names_in catalog.now) change.now) }
    requires directory { IsTrue (has_its_directory change.now version.at) }
    ensures { IfOk result (λ laid. laid ≡ with_base catalog.now change.now version pages.now log) }
{
    match next_by_base(alloc, catalog, change, &version, pages, log) {
        Ok(next) => Ok(joined(version, next)),
        Err(Memory) => {
            drop(version);
            Err(Memory)
        }
    }
}

/// The version of what is written, in the first of these pages.
fn placed_version(
    alloc: Global,
    written: Option<Written>,
    newest: &Directory,
    pages: &[u32],
) -> Result<NewVersion, Memory>
    requires written { IfSome written HasRisingNumbers }
    requires newest { AreRising newest.now.entries }
    ensures { IfOk result (λ version. version ≡ new_version pages.now written newest.now) }
{
    match payload_count(&written) {
        Ok(count) => new_version(alloc, written, newest, pages, count as usize),
        Err(Memory) => {
            drop(written);
            Err(Memory)
        }
    }
}

fn length_of(at: &BlobAt) -> u64
    ensures { result ≡ at.now.length }
{
    at.length
}

/// Looks at a length, which has 64 bits.
fn look_at(at: &Option<BlobAt>)
    ensures { IfSome at.now (λ some. some.length < 2 ^ 64) }
{
    if let Some(at) = at {
        let _length = length_of(at);
    }
}

/// A commit of a record over a catalogue and its pages, and the newest version's directory: its blobs and its record take the pages one
/// after the other.
#[tactic(auto, unfolding(crate::specs::Commits::record_laid))]
pub fn lay_record(
    alloc: Global,
    catalog: &Catalog,
    catalogue: &[u32],
    newest: &Directory,
    change: &Change,
    written: Option<Written>,
    pages: &[u32],
) -> Result<Laid, Memory>
    requires names { IsTrue (names_allow (names_in catalog.now) change.now) }
    requires comes { is_some written ≡ makes_version change.now }
    requires written { IfSome written IsWritten }
    requires newest { AreRising newest.now.entries }
    requires pages { length pages.now ≡ record_needs catalog.now newest.now change.now written }
    requires few { length pages.now < 2 ^ 32 }
    ensures laid { IfOk result (λ laid. laid ≡ record_laid catalog.now catalogue.now newest.now change.now written pages.now) }
    ensures blobs { IfOk result (λ laid. AllByRecursion IsBlobSized laid.blobs) }
    ensures chain { IfOk result (λ laid. IsChainSized laid.chain) }
    ensures pages { IfOk result (λ laid. commit_pages laid.blobs laid.chain ≡ pages.now) }
    ensures at { IfOk result (λ laid. IsItsBlob laid.at) }
    ensures rules { IfOk result (λ laid. (dims : ℕ) → IsDirectory dims newest.now → IfSome written (CanBeListed dims)
        → IfSome laid.directory (IsDirectory dims)) }
{
    match placed_version(alloc, written, newest, pages) {
        Ok(version) => {
            look_at(&version.at);
            with_record(alloc, catalog, catalogue, change, version, pages)
        }
        Err(Memory) => Err(Memory),
    }
}

/// A commit of a new base with this log page, over a catalogue and the newest version's directory: its blobs and the next catalogue take
/// the pages one after the other.
#[tactic(auto, unfolding(crate::specs::Commits::base_laid))]
pub fn lay_base(
    alloc: Global,
    catalog: &Catalog,
    newest: &Directory,
    change: &Change,
    written: Option<Written>,
    pages: &[u32],
    log: u32,
) -> Result<Laid, Memory>
    requires names { IsTrue (names_allow (names_in catalog.now) change.now) }
    requires comes { is_some written ≡ makes_version change.now }
    requires written { IfSome written IsWritten }
    requires newest { AreRising newest.now.entries }
    requires pages { length pages.now ≡ base_needs catalog.now newest.now change.now written }
    requires few { length pages.now < 2 ^ 32 }
    ensures laid { IfOk result (λ laid. laid ≡ base_laid catalog.now newest.now change.now written pages.now log) }
    ensures blobs { IfOk result (λ laid. AllByRecursion IsBlobSized laid.blobs) }
    ensures chain { IfOk result (λ laid. IsChainSized laid.chain) }
    ensures pages { IfOk result (λ laid. base_pages laid.blobs laid.chain log ≡ pages.now ++ log ∷ []) }
    ensures at { IfOk result (λ laid. IsItsBlob laid.at) }
    ensures rules { IfOk result (λ laid. (dims : ℕ) → IsDirectory dims newest.now → IfSome written (CanBeListed dims)
        → IfSome laid.directory (IsDirectory dims)) }
{
    match placed_version(alloc, written, newest, pages) {
        Ok(version) => {
            look_at(&version.at);
            with_base(alloc, catalog, change, version, pages, log)
        }
        Err(Memory) => Err(Memory),
    }
}
