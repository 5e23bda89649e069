//! Writing the catalogue, and the root that names it.
ghost use Rattle.std.specs.Prelude.{◌≡◌, ◌+◌, ◌<◌, ◌≤◌, ◌^◌, length, IfOk, IfErr, OnOk};
ghost use Rattle.version_catalog.specs.Spelling.{spelling};
ghost use Rattle.backup_restoring.specs.Inner.Layout.{pages_from};
ghost use Rattle.backup_restoring.specs.Inner.Writing.{chain_needs, AwaitsBase, Fails, IsBased};

use crate::fault::RestoreFault;
use crate::pages::pages_from;
use crate::versions::SEQUENCE;
use afl_outside::{Disk, has_risen};
use cell_values::{Bytes, List, Memory};
use page_chain::chain_pages;
use page_file::{PageFile, Placed, commit_base};
use std::alloc::Global;
use version_catalog::{Catalog, CatalogArray, encode_catalog};

/// Bytes in a chain of pages from one on.
fn placed(alloc: Global, bytes: Bytes, first: u32) -> Result<Placed, Memory>
    requires { first + chain_needs (length bytes) < 2 ^ 32 }
    ensures bytes { IfOk result (λ chain. chain.bytes ≡ bytes) }
    ensures pages { IfOk result (λ chain. chain.pages ≡ pages_from first (chain_needs (length bytes))) }
{
    let count = chain_pages(bytes.len() as u64) as u32;
    match pages_from(alloc, first, count) {
        Ok(pages) => Ok(Placed { pages, bytes }),
        Err(Memory) => Err(Memory),
    }
}

/// The catalogue's bytes in a chain of pages from one on.
fn chain(alloc: Global, arrays: List<CatalogArray>, first: u32) -> Result<Placed, Memory>
    requires { first + chain_needs (length (spelling (record { arrays = arrays }))) < 2 ^ 32 }
    ensures bytes { IfOk result (λ chain. chain.bytes ≡ spelling (record { arrays = arrays })) }
    ensures pages { IfOk result (λ chain. chain.pages ≡ pages_from first (chain_needs (length (spelling (record { arrays = arrays }))))) }
{
    let catalog = Catalog { arrays };
    match encode_catalog(alloc, &catalog) {
        Ok(bytes) => placed(alloc, bytes, first),
        Err(Memory) => Err(Memory),
    }
}

/// Commits the base whose catalogue is this chain, from a page on.
fn commit<D: Disk>(file: &mut PageFile<D>, chain: &Placed, first: u32) -> Result<(), RestoreFault>
    requires awaits { AwaitsBase file.old.slots }
    requires least { 3 ≤ first }
    requires some { 0 < length chain.now.bytes }
    requires pages { chain.now.pages ≡ pages_from first (chain_needs (length chain.now.bytes)) }
    requires room { first + chain_needs (length chain.now.bytes) < 2 ^ 32 }
    ensures based { OnOk result (IsBased first chain.now.bytes file.old.slots (D.moment file.old.disk) (D.moment file.new.disk)) }
    ensures fault { IfErr result (λ fault. Fails fault (D.moment file.old.disk).state (D.moment file.new.disk).state) }
{
    let log = first + chain.pages.len() as u32;
    let before = file.faults();
    match commit_base(file, &[], chain, SEQUENCE, log) {
        Ok(()) => Ok(()),
        Err(_stage) if has_risen(before, file.faults()) => Err(RestoreFault::Disk),
        Err(_stage) => Err(RestoreFault::Memory),
    }
}

/// Writes the catalogue of some arrays to pages from one on, and opens it.
pub(crate) fn write_base<D: Disk>(
    alloc: Global,
    file: &mut PageFile<D>,
    arrays: List<CatalogArray>,
    first: u32,
) -> Result<(), RestoreFault>
    requires awaits { AwaitsBase file.old.slots }
    requires least { 3 ≤ first }
    requires room { first + chain_needs (length (spelling (record { arrays = arrays }))) < 2 ^ 32 }
    ensures based { OnOk result (IsBased first (spelling (record { arrays = arrays })) file.old.slots (D.moment file.old.disk) (D.moment file.new.disk)) }
    ensures fault { IfErr result (λ fault. Fails fault (D.moment file.old.disk).state (D.moment file.new.disk).state) }
{
    match chain(alloc, arrays, first) {
        Ok(chain) => commit(file, &chain, first),
        Err(Memory) => Err(RestoreFault::Memory),
    }
}
