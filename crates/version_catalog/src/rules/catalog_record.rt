//! Records of a catalogue's changes.
ghost use Rattle.std.specs.Prelude.{◌≡◌, IfOk};
ghost use Rattle.version_catalog.specs.declared.rules.catalog_record.CatalogRecord.TheVariants.{Create, First, Next, Remove, RemoveVersions};

use crate::rules::BlobAt;
use file_items::{Copies, Memory, Name, Schema};

/// What a commit changes in the catalogue.
pub enum CatalogRecord {
    /// One more array, without versions.
    Create {
        name: Name,
        schema: Schema,
    },
    /// One more array with its first version.
    First {
        name: Name,
        schema: Schema,
        directory: BlobAt,
    },
    /// The next version of an array.
    Next {
        name: Name,
        directory: BlobAt,
    },
    /// The array goes, and its numbers with it.
    Remove {
        name: Name,
    },
    /// The versions below this number go.
    RemoveVersions {
        name: Name,
        below: u32,
    },
}

impl Drop for CatalogRecord {
    fn drop(self) {
        match self {
            CatalogRecord::Create { name: _, schema: _ } => {}
            CatalogRecord::First {
                name: _,
                schema: _,
                directory: _,
            } => {}
            CatalogRecord::Next {
                name: _,
                directory: _,
            } => {}
            CatalogRecord::Remove { name: _ } => {}
            CatalogRecord::RemoveVersions { name: _, below: _ } => {}
        }
    }
}

pub(crate) fn created_record(name: &Name, schema: &Schema) -> Result<CatalogRecord, Memory>
    ensures { IfOk result (λ entry. entry ≡ Create name.now schema.now) }
{
    Ok(CatalogRecord::Create {
        name: name.copy()?,
        schema: schema.copy()?,
    })
}

pub(crate) fn first_record(
    name: &Name,
    schema: &Schema,
    directory: BlobAt,
) -> Result<CatalogRecord, Memory>
    ensures { IfOk result (λ entry. entry ≡ First name.now schema.now directory) }
{
    Ok(CatalogRecord::First {
        name: name.copy()?,
        schema: schema.copy()?,
        directory,
    })
}

pub(crate) fn next_record(name: &Name, directory: BlobAt) -> Result<CatalogRecord, Memory>
    ensures { IfOk result (λ entry. entry ≡ Next name.now directory) }
{
    Ok(CatalogRecord::Next {
        name: name.copy()?,
        directory,
    })
}

pub(crate) fn removed_record(name: &Name) -> Result<CatalogRecord, Memory>
    ensures { IfOk result (λ entry. entry ≡ Remove name.now) }
{
    Ok(CatalogRecord::Remove { name: name.copy()? })
}

pub(crate) fn cut_record(name: &Name, below: u32) -> Result<CatalogRecord, Memory>
    ensures { IfOk result (λ entry. entry ≡ RemoveVersions name.now below) }
{
    Ok(CatalogRecord::RemoveVersions {
        name: name.copy()?,
        below,
    })
}

fn first_copy(name: &Name, schema: &Schema, directory: &BlobAt) -> Result<CatalogRecord, Memory>
    ensures { IfOk result (λ entry. entry ≡ First name.now schema.now directory.now) }
{
    first_record(name, schema, directory.copy()?)
}

fn next_copy(name: &Name, directory: &BlobAt) -> Result<CatalogRecord, Memory>
    ensures { IfOk result (λ entry. entry ≡ Next name.now directory.now) }
{
    next_record(name, directory.copy()?)
}

impl CatalogRecord {
    /// An equal record.
    pub fn copy(&self) -> Result<CatalogRecord, Memory>
        ensures { IfOk result (λ copy. copy ≡ self.now) }
    {
        match self {
            CatalogRecord::Create { name, schema } => created_record(name, schema),
            CatalogRecord::First {
                name,
                schema,
                directory,
            } => first_copy(name, schema, directory),
            CatalogRecord::Next { name, directory } => next_copy(name, directory),
            CatalogRecord::Remove { name } => removed_record(name),
            CatalogRecord::RemoveVersions { name, below } => cut_record(name, *below),
        }
    }
}

impl Copies for CatalogRecord {
    fn copy(&self) -> Result<CatalogRecord, Memory> {
        self.copy()
    }
}
