//! Writing the arrays of a backup.
ghost use Rattle.std.specs.Prelude.{◌≡◌, ◌+◌, ◌<◌, ◌≤◌, ◌^◌, map, sum_by, IfOk, IfErr};
ghost use Rattle.backup_format.specs.PiecePlaces.{array_in, arrays_in};
ghost use Rattle.backup_restoring.specs.Restores.{array_pages};
ghost use Rattle.backup_restoring.specs.Inner.Layout.{array_at, HoldsArray};
ghost use Rattle.backup_restoring.specs.Inner.Writing.{AwaitsBase, Fails, Lays, Writes};

use crate::fault::RestoreFault;
use crate::versions::write_versions;
use afl_outside::Disk;
use backup_format::{ArrayAt, VersionPiecesAt};
use cell_values::{List, MAX_DIMENSIONS, Memory, Schema};
use page_file::PageFile;
use plan_changes::NameEntry;
use std::alloc::Global;
use version_catalog::{BlobAt, CatalogArray};

fn numbers(alloc: Global, versions: &[VersionPiecesAt]) -> Result<List<u32>, Memory>
    ensures { IfOk result (λ numbers. numbers ≡ map (λ v. v.number) versions.now) }
{
    let mut numbers = List::with_capacity(alloc, versions.len())?;
    for version in versions {
        numbers.push(version.number)?;
    }
    Ok(numbers)
}

/// The names of an array.
fn entry(alloc: Global, array: &ArrayAt) -> Result<NameEntry, Memory>
    ensures { IfOk result (λ entry. entry ≡ record { name = array.now.name; schema = array.now.schema; next = array.now.next; versions = map (λ v. v.number) array.now.versions }) }
{
    Ok(NameEntry {
        name: array.name.copy()?,
        schema: array.schema.copy()?,
        next: array.next,
        versions: numbers(alloc, array.versions.as_slice())?,
    })
}

/// An array with its directories, in the catalogue.
fn with_entry(
    alloc: Global,
    array: &ArrayAt,
    directories: List<BlobAt>,
) -> Result<CatalogArray, Memory>
    ensures { IfOk result (λ x. x ≡ record {
      entry = record { name = array.now.name; schema = array.now.schema; next = array.now.next; versions = map (λ v. v.number) array.now.versions };
      directories = directories;
    }) }
{
    match entry(alloc, array) {
        Ok(entry) => Ok(CatalogArray { entry, directories }),
        Err(Memory) => Err(Memory),
    }
}

/// How many dimensions a schema has.
fn dimensions(schema: &Schema) -> u32 {
    let count = schema.dimensions.len();
    if count < MAX_DIMENSIONS {
        count as u32
    } else {
        MAX_DIMENSIONS as u32
    }
}

/// Writes an array's versions to pages from one on. Its part of the catalogue is answered, and the
/// page behind them.
fn write_array<D: Disk>(
    alloc: Global,
    file: &mut PageFile<D>,
    whole: &[u8],
    first: u32,
    array: &ArrayAt,
) -> Result<(CatalogArray, u32), RestoreFault>
    requires awaits { AwaitsBase file.old.slots }
    requires least { 3 ≤ first }
    requires room { first + array_pages (array_in whole.now array.now) < 2 ^ 32 }
    ensures array { IfOk result (λ x. x.0 ≡ array_at first (array_in whole.now array.now)) }
    ensures next { IfOk result (λ x. x.1 ≡ first + array_pages (array_in whole.now array.now)) }
    ensures written { IfOk result (λ _. Writes first (array_pages (array_in whole.now array.now))
        (λ now. HoldsArray now first (array_in whole.now array.now))
        file.old.slots file.new.slots (D.moment file.old.disk) (D.moment file.new.disk)) }
    ensures fault { IfErr result (λ fault. Fails fault (D.moment file.old.disk).state (D.moment file.new.disk).state) }
{
    let dims = dimensions(&array.schema);
    match write_versions(alloc, file, whole, first, dims, array.versions.as_slice()) {
        Ok((directories, next)) => match with_entry(alloc, array, directories) {
            Ok(array) => Ok((array, next)),
            Err(Memory) => Err(RestoreFault::Memory),
        },
        Err(fault) => Err(fault),
    }
}

/// Writes arrays to pages from one on. Their parts of the catalogue are answered, and the page
/// behind them.
pub(crate) fn write_arrays<D: Disk>(
    alloc: Global,
    file: &mut PageFile<D>,
    whole: &[u8],
    first: u32,
    arrays: &[ArrayAt],
) -> Result<(List<CatalogArray>, u32), RestoreFault>
    requires awaits { AwaitsBase file.old.slots }
    requires least { 3 ≤ first }
    requires room { first + sum_by array_pages (arrays_in whole.now arrays.now) < 2 ^ 32 }
    ensures laid { IfOk result (λ x. Lays array_pages array_at HoldsArray first (arrays_in whole.now arrays.now) x.1 x.0
        file.old.slots file.new.slots (D.moment file.old.disk) (D.moment file.new.disk)) }
    ensures fault { IfErr result (λ fault. Fails fault (D.moment file.old.disk).state (D.moment file.new.disk).state) }
{
    let mut catalog = List::new(alloc);
    let mut next = first;
    for array in arrays {
        match write_array(alloc, file, whole, next, array) {
            Ok((entry, behind)) => {
                next = behind;
                match catalog.push(entry) {
                    Ok(()) => {}
                    Err(Memory) => return Err(RestoreFault::Memory),
                }
            }
            Err(fault) => return Err(fault),
        }
    }
    Ok((catalog, next))
}
