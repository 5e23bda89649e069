//! The base of a found file.
ghost use Rattle.std.specs.Prelude.{◌≡◌, ◌++◌, [], ◌∷◌, ℕ, not, List, IfOk, OnOk};
ghost use Rattle.std.specs.List.{filter, flat_map};
ghost use Rattle.array_rows.specs.Boxes.{by_pairs};
ghost use Rattle.version_catalog.specs.declared.rules.catalog.BlobAt.{BlobAt as ABlobAt};
ghost use Rattle.version_catalog.specs.declared.rules.catalog.CatalogArray.{CatalogArray as ACatalogArray};
ghost use Rattle.version_catalog.specs.Catalogs.{names_in};
ghost use Rattle.version_reaper.specs.PageSets.{pages_below};
ghost use Rattle.event_core.specs.Legal.{BeginsWithNames};
ghost use Rattle.event_core.specs.Replay.{is_core_live};
ghost use Rattle.file_meaning.specs.Opening.{all_of, version_pages};
ghost use Rattle.file_reading.specs.Reading.{IsFound};
ghost use Rattle.store_opening.specs.Bases.{array_pages, base_core, catalogue_with, log_pages, pages_named, versions_pages, with_free};

use cell_values::{List, Memory, Name};
use chunk_map::{DirEntry, Directory};
use event_core::{Core, VersionPages, let_go_core};
use file_meaning::Found;
use logical_plan::Names;
use std::alloc::Global;
use version_catalog::{BlobAt, Catalog, CatalogArray};

/// The names of a catalogue's arrays.
fn names_of(alloc: Global, catalog: &Catalog) -> Result<Names, Memory>
    ensures { IfOk result (λ names. names ≡ names_in catalog.now) }
{
    let mut arrays = List::new(alloc);
    for array in catalog.arrays.as_slice() {
        arrays.push(array.entry.copy()?)?;
    }
    Ok(Names { arrays })
}

/// Adds the pages of some payloads.
fn push_payloads(pages: &mut List<u32>, entries: &[DirEntry]) -> Result<(), Memory>
    ensures { OnOk result (pages.new ≡ pages.old ++ flat_map (λ entry. entry.pages) entries.now) }
{
    for entry in entries {
        pages.extend(entry.pages.as_slice())?;
    }
    Ok(())
}

/// The pages of a version: those of its directory, and of the payloads that this lists.
fn version_pages(at: &BlobAt, directory: &Directory) -> Result<List<u32>, Memory>
    ensures { IfOk result (λ pages. pages ≡ version_pages at.now directory.now) }
{
    let mut pages = at.pages.copy()?;
    push_payloads(&mut pages, directory.entries.as_slice())?;
    Ok(pages)
}

/// Adds the pages of a version.
fn push_pages(pages: &mut List<List<u32>>, at: &BlobAt, directory: &Directory) -> Result<(), Memory>
    ensures { OnOk result (pages.new ≡ pages.old ++ version_pages at.now directory.now ∷ []) }
{
    match version_pages(at, directory) {
        Ok(more) => pages.push(more),
        Err(want) => Err(want),
    }
}

/// Adds the pages of a version whose directory is the first one left, and answers the directories behind it.
fn push_first<'a>(
    pages: &mut List<List<u32>>,
    at: &BlobAt,
    left: &'a [Directory],
) -> Result<&'a [Directory], Memory>
    ensures { IfOk result (λ rest. (blobs : List ABlobAt)
        → pages.new ++ by_pairs version_pages blobs rest.now ≡ pages.old ++ by_pairs version_pages (at.now ∷ blobs) left.now) }
{
    match left.split_first() {
        Some((directory, rest)) => match push_pages(pages, at, directory) {
            Ok(()) => Ok(rest),
            Err(want) => Err(want),
        },
        None => Ok(left),
    }
}

/// The pages of each of an array's versions.
fn row_pages(alloc: Global, blobs: &[BlobAt], row: &[Directory]) -> Result<List<List<u32>>, Memory>
    ensures { IfOk result (λ pages. pages ≡ by_pairs version_pages blobs.now row.now) }
{
    let mut pages = List::new(alloc);
    let mut left = row;
    for at in blobs {
        match push_first(&mut pages, at, left) {
            Ok(rest) => left = rest,
            Err(want) => return Err(want),
        }
    }
    Ok(pages)
}

/// The pages of a version under its name.
fn named(name: &Name, version: u32, pages: List<u32>) -> Result<VersionPages, Memory>
    ensures { IfOk result (λ named. named ≡ pages_named name.now version pages) }
{
    match name.copy() {
        Ok(name) => Ok(VersionPages {
            name,
            version,
            pages,
        }),
        Err(want) => {
            drop(pages);
            Err(want)
        }
    }
}

/// Adds the pages of the version whose number is the first one left, and answers the numbers behind it.
fn push_version<'a>(
    versions: &mut List<VersionPages>,
    name: &Name,
    left: &'a [u32],
    pages: List<u32>,
) -> Result<&'a [u32], Memory>
    ensures { IfOk result (λ rest. (lists : List (List ℕ))
        → versions.new ++ by_pairs (pages_named name.now) rest.now lists
        ≡ versions.old ++ by_pairs (pages_named name.now) left.now (pages ∷ lists)) }
{
    match left.split_first() {
        Some((number, rest)) => match named(name, *number, pages) {
            Ok(version) => match versions.push(version) {
                Ok(()) => Ok(rest),
                Err(want) => Err(want),
            },
            Err(want) => Err(want),
        },
        None => {
            drop(pages);
            Ok(left)
        }
    }
}

/// Adds the pages of an array's versions, each under its name.
fn push_named(
    versions: &mut List<VersionPages>,
    name: &Name,
    numbers: &[u32],
    lists: List<List<u32>>,
) -> Result<(), Memory>
    ensures { OnOk result (versions.new ≡ versions.old ++ by_pairs (pages_named name.now) numbers.now lists) }
{
    let mut left = numbers;
    for pages in lists.into_vec() {
        left = push_version(versions, name, left, pages)?;
    }
    Ok(())
}

/// Adds the pages of an array's versions.
fn push_array(
    versions: &mut List<VersionPages>,
    array: &CatalogArray,
    row: &[Directory],
) -> Result<(), Memory>
    ensures { OnOk result (versions.new ≡ versions.old ++ array_pages array.now row.now) }
{
    let pages = row_pages(versions.allocator(), array.directories.as_slice(), row)?;
    push_named(
        versions,
        &array.entry.name,
        array.entry.versions.as_slice(),
        pages,
    )
}

/// Adds the pages of an array whose directories are the first ones left, and answers those behind them.
fn push_row<'a>(
    versions: &mut List<VersionPages>,
    array: &CatalogArray,
    left: &'a [List<Directory>],
) -> Result<&'a [List<Directory>], Memory>
    ensures { IfOk result (λ rest. (arrays : List ACatalogArray)
        → versions.new ++ all_of (by_pairs array_pages arrays rest.now)
        ≡ versions.old ++ all_of (by_pairs array_pages (array.now ∷ arrays) left.now)) }
{
    match left.split_first() {
        Some((row, rest)) => match push_array(versions, array, row.as_slice()) {
            Ok(()) => Ok(rest),
            Err(want) => Err(want),
        },
        None => Ok(left),
    }
}

/// The pages of all versions.
fn versions_pages(alloc: Global, found: &Found) -> Result<List<VersionPages>, Memory>
    ensures { IfOk result (λ versions. versions ≡ versions_pages found.now) }
{
    let mut versions = List::new(alloc);
    let mut left = found.directories.as_slice();
    for array in found.catalog.arrays.as_slice() {
        match push_row(&mut versions, array, left) {
            Ok(rest) => left = rest,
            Err(want) => return Err(want),
        }
    }
    Ok(versions)
}

/// Adds the log page, which a file of format 1 doesn't have.
fn push_log(pages: &mut List<u32>, log: u32) -> Result<(), Memory>
    ensures { OnOk result (pages.new ≡ pages.old ++ log_pages log) }
{
    if log == 0 { Ok(()) } else { pages.push(log) }
}

/// Adds the pages of records.
fn push_records(pages: &mut List<u32>, records: &[List<u32>]) -> Result<(), Memory>
    ensures { OnOk result (pages.new ≡ pages.old ++ all_of records.now) }
{
    for record in records {
        pages.extend(record.as_slice())?;
    }
    Ok(())
}

/// The pages of the catalogue, with the log page.
fn catalogue_with(found: &Found, log: u32) -> Result<List<u32>, Memory>
    ensures { IfOk result (λ pages. pages ≡ catalogue_with found.now log) }
{
    let mut pages = found.chain.copy()?;
    push_log(&mut pages, log)?;
    push_records(&mut pages, found.logged.as_slice())?;
    Ok(pages)
}

/// What is known before any entry of a store that keeps nothing.
fn nothing(alloc: Global, limit: u32) -> Core
    ensures { result ≡ record { names = record { arrays = [] }; pages = []; catalogue = []; pins = []; free = []; limit = limit; entries = 0 } }
{
    Core {
        names: Names {
            arrays: List::new(alloc),
        },
        pages: List::new(alloc),
        catalogue: List::new(alloc),
        pins: List::new(alloc),
        free: List::new(alloc),
        limit,
        entries: 0,
    }
}

/// Puts what is found in its place.
fn put_found(core: &mut Core, found: &Found, log: u32) -> Result<(), Memory>
    ensures { OnOk result (core.new
        ≡ record core.old { names = names_in found.now.catalog; pages = versions_pages found.now; catalogue = catalogue_with found.now log }) }
{
    let alloc = core.free.allocator();
    core.names = names_of(alloc, &found.catalog)?;
    core.pages = versions_pages(alloc, found)?;
    core.catalogue = catalogue_with(found, log)?;
    Ok(())
}

/// Puts the pages in their place that a reap would free. No entry comes by that.
fn put_free(core: &mut Core) -> Result<(), Memory>
    requires { core.old.entries ≡ 0 }
    ensures { OnOk result (core.new ≡ record core.old { free = filter (λ page. not (is_core_live core.old page)) (pages_below core.old.limit) }) }
{
    core.reap()?;
    core.entries = 0;
    Ok(())
}

fn fill(core: &mut Core, found: &Found, log: u32) -> Result<(), Memory>
    requires { core.old.entries ≡ 0 }
    ensures { OnOk result (core.new
        ≡ with_free (record core.old { names = names_in found.now.catalog; pages = versions_pages found.now; catalogue = catalogue_with found.now log })) }
{
    put_found(core, found, log)?;
    put_free(core)
}

/// The base of a store's history, of what is found in its file, over so many pages: the names of the catalogue, the pages of each
/// version, those of the catalogue with the log page, and as free pages all others.
pub fn base_of(alloc: Global, found: &Found, log: u32, limit: u32) -> Result<Core, Memory>
    requires { IsFound found.now }
    ensures core { IfOk result (λ core. core ≡ base_core found.now log limit) }
    ensures begins { IfOk result BeginsWithNames }
{
    let mut core = nothing(alloc, limit);
    match fill(&mut core, found, log) {
        Ok(()) => Ok(core),
        Err(want) => {
            let_go_core(core);
            Err(want)
        }
    }
}
