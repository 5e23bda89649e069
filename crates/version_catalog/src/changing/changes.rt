//! The catalogue after a record or a change.
ghost use Rattle.std.specs.Prelude.{◌≡◌, Some, IfOk, IsTrue};
ghost use Rattle.plan_changes.specs.Allowed.{names_allow};
ghost use Rattle.version_catalog.specs.Catalogs.{names_in};
ghost use Rattle.version_catalog.specs.Records.{entries_of, allows, is_allowed, recorded, after_record};
ghost use Rattle.version_catalog.specs.Changed.{stored_by, record_for, has_its_directory, after_change};

use crate::changing::arrays::{from_version, with_directory, with_first, with_new, without};
use crate::changing::rules::has_array;
use crate::rules::{created_record, cut_record, first_record, next_record, removed_record};
use crate::{BlobAt, Catalog, CatalogArray, CatalogRecord};
use cell_values::{List, Memory, Name, Schema};
use plan_changes::Change;

/// The arrays after a record that they allow.
fn recorded(arrays: List<CatalogArray>, entry: &CatalogRecord) -> Result<List<CatalogArray>, Memory>
    requires { IsTrue (allows (entries_of arrays) entry.now) }
    ensures { IfOk result (λ after. after ≡ recorded arrays entry.now) }
{
    match entry {
        CatalogRecord::Create { name, schema } => with_new(arrays, name, schema),
        CatalogRecord::First {
            name,
            schema,
            directory,
        } => with_first(arrays, name, schema, directory),
        CatalogRecord::Next { name, directory } => with_directory(arrays, name, directory),
        CatalogRecord::Remove { name } => Ok(without(arrays, name)),
        CatalogRecord::RemoveVersions { name, below } => Ok(from_version(arrays, name, *below)),
    }
}

/// The catalogue after a record that it allows.
pub fn with_record(catalog: &Catalog, entry: &CatalogRecord) -> Result<Catalog, Memory>
    requires { IsTrue (is_allowed catalog.now entry.now) }
    ensures { IfOk result (λ after. after ≡ after_record catalog.now entry.now) }
{
    let arrays = recorded(catalog.arrays.copy()?, entry)?;
    Ok(Catalog { arrays })
}

/// The record of a new version of an array that stands, or of a new one.
fn stored(
    catalog: &Catalog,
    name: &Name,
    schema: &Schema,
    directory: BlobAt,
) -> Result<CatalogRecord, Memory>
    ensures { IfOk result (λ entry. entry ≡ stored_by catalog.now name.now schema.now directory) }
{
    if has_array(&catalog.arrays, name) {
        next_record(name, directory)
    } else {
        first_record(name, schema, directory)
    }
}

/// The record of a change with its directory.
fn recorded_change(
    catalog: &Catalog,
    change: &Change,
    directory: Option<BlobAt>,
) -> Result<CatalogRecord, Memory>
    requires { IsTrue (has_its_directory change.now directory) }
    ensures { IfOk result (λ entry. record_for catalog.now change.now directory ≡ Some entry) }
{
    match change {
        Change::Create { name, schema } => created_record(name, schema),
        Change::Store { name, schema, .. } => match directory {
            Some(directory) => stored(catalog, name, schema, directory),
            None => unreachable!(),
        },
        Change::Insert { name, .. } => match directory {
            Some(directory) => next_record(name, directory),
            None => unreachable!(),
        },
        Change::Remove { name } => removed_record(name),
        Change::RemoveVersions { name, below } => cut_record(name, *below),
    }
}

/// The record of a change that the names allow. A directory comes with a change that makes a version.
pub fn record_of(
    catalog: &Catalog,
    change: &Change,
    directory: Option<BlobAt>,
) -> Result<CatalogRecord, Memory>
    requires names { IsTrue (names_allow (names_in catalog.now) change.now) }
    requires directory { IsTrue (has_its_directory change.now directory) }
    ensures entry { IfOk result (λ entry. record_for catalog.now change.now directory ≡ Some entry) }
    // The catalogue allows it, and it makes of the catalogue what the change does.
    ensures allowed { IfOk result (λ entry. IsTrue (is_allowed catalog.now entry)) }
    ensures same { IfOk result (λ entry. after_record catalog.now entry ≡ after_change catalog.now change.now directory) }
{
    recorded_change(catalog, change, directory)
}

/// The catalogue after a change that the names allow. A directory comes with a change that makes a version.
pub fn with_change(
    catalog: &Catalog,
    change: &Change,
    directory: Option<BlobAt>,
) -> Result<Catalog, Memory>
    requires names { IsTrue (names_allow (names_in catalog.now) change.now) }
    requires directory { IsTrue (has_its_directory change.now directory) }
    ensures { IfOk result (λ after. after ≡ after_change catalog.now change.now directory) }
{
    let entry = record_of(catalog, change, directory)?;
    with_record(catalog, &entry)
}
