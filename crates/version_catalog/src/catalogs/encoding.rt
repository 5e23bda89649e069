//! Encoding catalogues and records.
ghost use Rattle.std.specs.Prelude.{◌≡◌, ◌≤◌, ◌∷◌, ◌++◌, length, OnOk, IfOk};
ghost use Rattle.std.specs.Int.{w32, to_le_bytes};
ghost use Rattle.file_items.specs.Items.{spell_counted};
ghost use Rattle.file_items.specs.Spelling.{spell_name, spell_schema};
ghost use Rattle.version_catalog.specs.Spelling.{spell_blob, versions_at, spell_version, spell_array, spelling, spell_record};

use crate::rules::{BlobAt, Catalog, CatalogArray, CatalogRecord};
use file_items::{
    Bytes, Memory, Name, Schema, put_count, put_name, put_pages, put_schema, put_u32, put_u64,
};
use std::alloc::Global;

#[tactic(auto, unfolding(crate::specs::Spelling::spell_blob))]
fn put_blob(out: &mut Bytes, blob: &BlobAt) -> Result<(), Memory>
    ensures { OnOk result (out.new ≡ out.old ++ spell_blob blob.now) }
{
    put_u64(out, blob.length)?;
    put_pages(out, blob.pages.as_slice())
}

#[tactic(auto, unfolding(crate::specs::Spelling::spell_version))]
fn put_version(out: &mut Bytes, number: u32, directory: &BlobAt) -> Result<(), Memory>
    ensures { OnOk result (out.new ≡ out.old ++ spell_version (record { number = number; directory = directory.now })) }
{
    put_u32(out, number)?;
    put_blob(out, directory)
}

/// How many versions have a directory.
#[tactic(auto, using(crate::proofs::Pairs::count_pairs))]
fn count_versions(numbers: &[u32], directories: &[BlobAt]) -> usize
    ensures count { result ≡ length (versions_at numbers.now directories.now) }
    ensures within { (result ≤ length numbers.now) × (result ≤ length directories.now) }
{
    numbers.len().min(directories.len())
}

/// Adds the versions, each with its directory.
fn put_versions(out: &mut Bytes, numbers: &[u32], directories: &[BlobAt]) -> Result<(), Memory>
    ensures { OnOk result (out.new ≡ out.old ++ spell_counted w32 spell_version (versions_at numbers.now directories.now)) }
{
    let count = count_versions(numbers, directories);
    put_count(out, count)?;
    for index in 0..count {
        put_version(out, numbers[index], &directories[index])?;
    }
    Ok(())
}

/// Adds the number of the next version, and the versions.
fn put_numbered(
    out: &mut Bytes,
    next: u32,
    numbers: &[u32],
    directories: &[BlobAt],
) -> Result<(), Memory>
    ensures { OnOk result (out.new ≡ out.old ++ (to_le_bytes w32 next ++ spell_counted w32 spell_version (versions_at numbers.now directories.now))) }
{
    put_u32(out, next)?;
    put_versions(out, numbers, directories)
}

#[tactic(auto, unfolding(crate::specs::Spelling::spell_array))]
fn put_array(out: &mut Bytes, array: &CatalogArray) -> Result<(), Memory>
    ensures { OnOk result (out.new ≡ out.old ++ spell_array array.now) }
{
    let entry = &array.entry;
    put_name(out, &entry.name)?;
    put_schema(out, &entry.schema)?;
    let numbers = entry.versions.as_slice();
    put_numbered(out, entry.next, numbers, array.directories.as_slice())
}

fn put_arrays(out: &mut Bytes, arrays: &[CatalogArray]) -> Result<(), Memory>
    ensures { OnOk result (out.new ≡ out.old ++ spell_counted w32 spell_array arrays.now) }
{
    put_count(out, arrays.len())?;
    for array in arrays {
        put_array(out, array)?;
    }
    Ok(())
}

/// The one spelling of a catalogue.
#[tactic(auto, unfolding(crate::specs::Spelling::spelling))]
pub fn encode_catalog(alloc: Global, catalog: &Catalog) -> Result<Bytes, Memory>
    ensures { IfOk result (λ bytes. bytes ≡ spelling catalog.now) }
{
    let mut out = Bytes::new(alloc);
    put_arrays(&mut out, catalog.arrays.as_slice())?;
    Ok(out)
}

fn put_named_schema(out: &mut Bytes, name: &Name, schema: &Schema) -> Result<(), Memory>
    ensures { OnOk result (out.new ≡ out.old ++ (spell_name name.now ++ spell_schema schema.now)) }
{
    put_name(out, name)?;
    put_schema(out, schema)
}

fn put_create(out: &mut Bytes, name: &Name, schema: &Schema) -> Result<(), Memory>
    ensures { OnOk result (out.new ≡ out.old ++ (1 ∷ (spell_name name.now ++ spell_schema schema.now))) }
{
    out.push(1)?;
    put_named_schema(out, name, schema)
}

fn put_first(
    out: &mut Bytes,
    name: &Name,
    schema: &Schema,
    directory: &BlobAt,
) -> Result<(), Memory>
    ensures { OnOk result (out.new ≡ out.old ++ (2 ∷ ((spell_name name.now ++ spell_schema schema.now) ++ spell_blob directory.now))) }
{
    out.push(2)?;
    put_named_schema(out, name, schema)?;
    put_blob(out, directory)
}

fn put_next(out: &mut Bytes, name: &Name, directory: &BlobAt) -> Result<(), Memory>
    ensures { OnOk result (out.new ≡ out.old ++ (3 ∷ (spell_name name.now ++ spell_blob directory.now))) }
{
    out.push(3)?;
    put_name(out, name)?;
    put_blob(out, directory)
}

fn put_remove(out: &mut Bytes, name: &Name) -> Result<(), Memory>
    ensures { OnOk result (out.new ≡ out.old ++ (4 ∷ spell_name name.now)) }
{
    out.push(4)?;
    put_name(out, name)
}

fn put_below(out: &mut Bytes, name: &Name, below: u32) -> Result<(), Memory>
    ensures { OnOk result (out.new ≡ out.old ++ (5 ∷ (spell_name name.now ++ to_le_bytes w32 below))) }
{
    out.push(5)?;
    put_name(out, name)?;
    put_u32(out, below)
}

#[tactic(auto, unfolding(crate::specs::Spelling::spell_record))]
fn put_record(out: &mut Bytes, entry: &CatalogRecord) -> Result<(), Memory>
    ensures { OnOk result (out.new ≡ out.old ++ spell_record entry.now) }
{
    match entry {
        CatalogRecord::Create { name, schema } => put_create(out, name, schema),
        CatalogRecord::First {
            name,
            schema,
            directory,
        } => put_first(out, name, schema, directory),
        CatalogRecord::Next { name, directory } => put_next(out, name, directory),
        CatalogRecord::Remove { name } => put_remove(out, name),
        CatalogRecord::RemoveVersions { name, below } => put_below(out, name, *below),
    }
}

/// The one spelling of a record.
pub fn encode_record(alloc: Global, entry: &CatalogRecord) -> Result<Bytes, Memory>
    ensures { IfOk result (λ bytes. bytes ≡ spell_record entry.now) }
{
    let mut out = Bytes::new(alloc);
    put_record(&mut out, entry)?;
    Ok(out)
}
