//! The worked catalogue and its changes, as values.
ghost use Rattle.std.specs.Prelude.{◌≡◌, [], ◌∷◌, IfOk, codes};
ghost use Rattle.plan_changes.specs.declared.change.Change.TheVariants.{Remove, RemoveVersions};
ghost use Rattle.test_changes.specs.Worked.{schema_to, worked_schema, blob_in, worked_catalog, written, worked_create};

use cell_values::{Attribute, Dimension, Kind, List, Memory, Schema};
use logical_plan::{NameEntry, Plan};
use plan_changes::Change;
use std::alloc::Global;
use test_kit::{name_of, one_more};
use version_catalog::{BlobAt, Catalog, CatalogArray};

/// A number in each cell.
fn attributes(alloc: Global) -> Result<List<Attribute>, Memory>
    ensures { IfOk result (λ attributes. attributes ≡ worked_schema.attributes) }
{
    let attribute = Attribute {
        name: name_of(alloc, b"v")?,
        kind: Kind::Int64,
        nullable: true,
    };
    one_more(List::new(alloc), attribute)
}

fn dimensions(alloc: Global, hi: i64) -> Result<List<Dimension>, Memory>
    ensures { IfOk result (λ dimensions. dimensions ≡ (schema_to hi).dimensions) }
{
    let dimension = Dimension {
        name: name_of(alloc, b"i")?,
        lo: 0,
        hi,
        chunk: 2,
        overlap: 0,
    };
    one_more(List::new(alloc), dimension)
}

/// A number in each cell of one dimension, from 0.
pub(crate) fn schema(alloc: Global, hi: i64) -> Result<Schema, Memory>
    ensures { IfOk result (λ schema. schema ≡ schema_to hi) }
{
    Ok(Schema {
        attributes: attributes(alloc)?,
        dimensions: dimensions(alloc, hi)?,
    })
}

/// Some bytes in one page.
pub(crate) fn blob(alloc: Global, length: u64, page: u32) -> Result<BlobAt, Memory>
    ensures { IfOk result (λ blob. blob ≡ blob_in length page) }
{
    Ok(BlobAt {
        length,
        pages: List::from_slice(alloc, &[page])?,
    })
}

fn directories(alloc: Global) -> Result<List<BlobAt>, Memory>
    ensures { IfOk result (λ directories. directories ≡ blob_in 44 7 ∷ blob_in 8 8 ∷ []) }
{
    let directories = one_more(List::new(alloc), blob(alloc, 44, 7)?)?;
    one_more(directories, blob(alloc, 8, 8)?)
}

fn entry(alloc: Global) -> Result<NameEntry, Memory>
    ensures { IfOk result (λ entry. entry ≡ record { name = codes "A"; schema = worked_schema; next = 3; versions = 1 ∷ 2 ∷ [] }) }
{
    Ok(NameEntry {
        name: name_of(alloc, b"A")?,
        schema: schema(alloc, 3)?,
        next: 3,
        versions: List::from_slice(alloc, &[1, 2])?,
    })
}

/// The array A with its versions 1 and 2.
pub(crate) fn catalog(alloc: Global) -> Result<Catalog, Memory>
    ensures { IfOk result (λ catalog. catalog ≡ worked_catalog) }
{
    let array = CatalogArray {
        entry: entry(alloc)?,
        directories: directories(alloc)?,
    };
    Ok(Catalog {
        arrays: one_more(List::new(alloc), array)?,
    })
}

/// No cells, inserted into an array or stored in it.
pub(crate) fn write_none(alloc: Global, name: &[u8], is_inserted: bool) -> Result<Change, Memory>
    ensures { IfOk result (λ change. change ≡ written name.now is_inserted) }
{
    let name = name_of(alloc, name)?;
    let schema = schema(alloc, 3)?;
    let plan = Plan::literal(schema.copy()?, List::new(alloc));
    if is_inserted {
        Ok(Change::Insert { name, schema, plan })
    } else {
        Ok(Change::Store { name, schema, plan })
    }
}

/// B is made.
pub(crate) fn create(alloc: Global) -> Result<Change, Memory>
    ensures { IfOk result (λ change. change ≡ worked_create) }
{
    Ok(Change::Create {
        name: name_of(alloc, b"B")?,
        schema: schema(alloc, 3)?,
    })
}

/// A goes.
pub(crate) fn remove(alloc: Global) -> Result<Change, Memory>
    ensures { IfOk result (λ change. change ≡ Remove (codes "A")) }
{
    Ok(Change::Remove {
        name: name_of(alloc, b"A")?,
    })
}

/// The versions of A below 2 go.
pub(crate) fn cut(alloc: Global) -> Result<Change, Memory>
    ensures { IfOk result (λ change. change ≡ RemoveVersions (codes "A") 2) }
{
    Ok(Change::RemoveVersions {
        name: name_of(alloc, b"A")?,
        below: 2,
    })
}
