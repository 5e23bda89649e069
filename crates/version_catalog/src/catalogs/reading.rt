//! Reading a catalogue, item by item.
ghost use Rattle.std.specs.Prelude.{◌≡◌, length, None, IfOk};
ghost use Rattle.std.specs.Option.{option_copied};
ghost use Rattle.file_items.specs.Items.{IsRead, repeat};
ghost use Rattle.plan_changes.specs.Stored.{is_before};
ghost use Rattle.version_catalog.specs.Spelling.{versions_at};
ghost use Rattle.version_catalog.specs.Table.{blob_at, is_version, version_at, next_version, number_in, numbered_at, content_at};
ghost use Rattle.version_catalog.specs.Table.{is_next_name, array_at, next_array, name_in, last_name, catalog_in};

use crate::rules::{BlobAt, Catalog, CatalogArray};
use file_items::{List, Name, Stop, name, pages, positive, schema, u32_at};
use plan_changes::NameEntry;
use std::alloc::Global;

/// Some bytes of the file.
#[tactic(auto, unfolding(crate::specs::Table::blob_at))]
pub(crate) fn blob(alloc: Global, bytes: &[u8]) -> Result<(BlobAt, &[u8]), Stop>
    ensures { IsRead (λ x. (x.0, x.1.now)) result (blob_at bytes.now) }
{
    match positive(bytes) {
        Ok((length, rest)) => match pages(alloc, length, rest) {
            Ok((pages, rest)) => Ok((BlobAt { length, pages }, rest)),
            Err(stop) => Err(stop),
        },
        Err(stop) => Err(stop),
    }
}

/// A version above one and below the next one, and its directory.
#[tactic(auto, unfolding(crate::specs::Table::version_at))]
fn version(alloc: Global, next: u32, last: u32, bytes: &[u8]) -> Result<(u32, BlobAt, &[u8]), Stop>
    ensures { IsRead (λ x. (record { number = x.0; directory = x.1 }, x.2.now)) result (version_at next last bytes.now) }
{
    let (number, rest) = match u32_at(bytes) {
        Ok(read) => read,
        Err(stop) => return Err(stop),
    };
    if !(last < number && number < next) {
        return Err(Stop::Left(bytes.len()));
    }
    match blob(alloc, rest) {
        Ok((directory, rest)) => Ok((number, directory, rest)),
        Err(stop) => Err(stop),
    }
}

fn versions(
    alloc: Global,
    next: u32,
    count: u32,
    bytes: &[u8],
) -> Result<(List<u32>, List<BlobAt>, &[u8]), Stop>
    ensures read { IsRead (λ x. (versions_at x.0 x.1, x.2.now)) result (repeat (next_version next) number_in count 0 bytes.now) }
    ensures one_each { IfOk result (λ x. length x.1 ≡ length x.0) }
{
    let mut numbers = List::new(alloc);
    let mut directories = List::new(alloc);
    let mut last = 0;
    let mut rest = bytes;
    for _index in 0..count {
        match version(alloc, next, last, rest) {
            Ok((number, directory, after)) => {
                numbers.push(number)?;
                directories.push(directory)?;
                last = number;
                rest = after;
            }
            Err(stop) => return Err(stop),
        }
    }
    Ok((numbers, directories, rest))
}

/// The number of the next version, and the versions with their directories.
#[tactic(auto, unfolding(crate::specs::Table::numbered_at))]
fn numbered(alloc: Global, bytes: &[u8]) -> Result<(u32, List<u32>, List<BlobAt>, &[u8]), Stop>
    ensures read { IsRead (λ x. (record { next = x.0; versions = versions_at x.1 x.2 }, x.3.now)) result (numbered_at bytes.now) }
    ensures one_each { IfOk result (λ x. length x.2 ≡ length x.1) }
{
    let (next, rest) = match u32_at(bytes) {
        Ok(read) => read,
        Err(stop) => return Err(stop),
    };
    if !(1 <= next && next <= 65536) {
        return Err(Stop::Left(bytes.len()));
    }
    let (count, rest) = match u32_at(rest) {
        Ok(read) => read,
        Err(stop) => return Err(stop),
    };
    match versions(alloc, next, count, rest) {
        Ok((numbers, directories, rest)) => Ok((next, numbers, directories, rest)),
        Err(stop) => Err(stop),
    }
}

/// The name of the last array.
fn last_name(arrays: &List<CatalogArray>) -> Option<&Name>
    ensures { option_copied result ≡ last_name arrays.now }
{
    match arrays.as_slice() {
        [] => None,
        [.., last] => Some(&last.entry.name),
    }
}

/// Whether a name is behind another, in byte order.
fn is_next_name(before: Option<&Name>, name: &Name) -> bool
    ensures { result ≡ is_next_name (option_copied before.entry) name.now }
{
    match before {
        None => true,
        Some(last) => last.as_slice().cmp(name.as_slice()).is_lt(),
    }
}

/// An array behind one of this name.
#[tactic(auto, unfolding(crate::specs::Table::array_at, crate::specs::Table::items_at, crate::specs::Table::content_at))]
fn array<'a>(
    alloc: Global,
    before: Option<&Name>,
    bytes: &'a [u8],
) -> Result<(CatalogArray, &'a [u8]), Stop>
    ensures { IsRead (λ x. (x.0, x.1.now)) result (array_at (option_copied before.entry) bytes.now) }
{
    match name(alloc, bytes) {
        Ok((name, rest)) => {
            if !is_next_name(before, &name) {
                return Err(Stop::Left(bytes.len()));
            }
            match schema(alloc, rest) {
                Ok((schema, rest)) => match numbered(alloc, rest) {
                    Ok((next, versions, directories, rest)) => {
                        let entry = NameEntry {
                            name,
                            schema,
                            next,
                            versions,
                        };
                        Ok((CatalogArray { entry, directories }, rest))
                    }
                    Err(stop) => Err(stop),
                },
                Err(stop) => Err(stop),
            }
        }
        Err(stop) => Err(stop),
    }
}

fn arrays(alloc: Global, count: u32, bytes: &[u8]) -> Result<(List<CatalogArray>, &[u8]), Stop>
    ensures { IsRead (λ x. (x.0, x.1.now)) result (repeat next_array name_in count None bytes.now) }
{
    let mut arrays = List::new(alloc);
    let mut rest = bytes;
    for _index in 0..count {
        match array(alloc, last_name(&arrays), rest) {
            Ok((array, after)) => {
                arrays.push(array)?;
                rest = after;
            }
            Err(stop) => return Err(stop),
        }
    }
    Ok((arrays, rest))
}

/// A catalogue, and nothing after it.
#[tactic(auto, unfolding(crate::specs::Table::arrays_at))]
pub(crate) fn catalog(alloc: Global, bytes: &[u8]) -> Result<Catalog, Stop>
    ensures { IsRead (λ x. x) result (catalog_in bytes.now) }
{
    let (count, rest) = match u32_at(bytes) {
        Ok(read) => read,
        Err(stop) => return Err(stop),
    };
    if 1024 < count {
        return Err(Stop::Left(bytes.len()));
    }
    match arrays(alloc, count, rest) {
        Ok((arrays, rest)) => {
            if rest.is_empty() {
                Ok(Catalog { arrays })
            } else {
                Err(Stop::Left(rest.len()))
            }
        }
        Err(stop) => Err(stop),
    }
}
