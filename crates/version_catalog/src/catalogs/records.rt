//! Reading a record, item by item.
ghost use Rattle.std.specs.Prelude.{◌≡◌, ◌∷◌};
ghost use Rattle.file_items.specs.Items.{IsRead};
ghost use Rattle.version_catalog.specs.Table.{named_schema_at, record_at, record_in};

use crate::catalogs::reading::blob;
use crate::rules::CatalogRecord;
use file_items::{Name, Schema, Stop, name, schema, u32_at};
use std::alloc::Global;

#[tactic(auto, unfolding(crate::specs::Table::named_schema_at))]
fn named_schema(alloc: Global, bytes: &[u8]) -> Result<(Name, Schema, &[u8]), Stop>
    ensures { IsRead (λ x. (record { name = x.0; schema = x.1 }, x.2.now)) result (named_schema_at bytes.now) }
{
    match name(alloc, bytes) {
        Ok((name, rest)) => match schema(alloc, rest) {
            Ok((schema, rest)) => Ok((name, schema, rest)),
            Err(stop) => Err(stop),
        },
        Err(stop) => Err(stop),
    }
}

#[tactic(auto, unfolding(crate::specs::Table::record_at))]
fn created(alloc: Global, bytes: &[u8]) -> Result<(CatalogRecord, &[u8]), Stop>
    ensures { IsRead (λ x. (x.0, x.1.now)) result (record_at (1 ∷ bytes.now)) }
{
    match named_schema(alloc, bytes) {
        Ok((name, schema, rest)) => Ok((CatalogRecord::Create { name, schema }, rest)),
        Err(stop) => Err(stop),
    }
}

#[tactic(auto, unfolding(crate::specs::Table::record_at, crate::specs::Table::first_version_at))]
fn first(alloc: Global, bytes: &[u8]) -> Result<(CatalogRecord, &[u8]), Stop>
    ensures { IsRead (λ x. (x.0, x.1.now)) result (record_at (2 ∷ bytes.now)) }
{
    match named_schema(alloc, bytes) {
        Ok((name, schema, rest)) => match blob(alloc, rest) {
            Ok((directory, rest)) => {
                let first = CatalogRecord::First {
                    name,
                    schema,
                    directory,
                };
                Ok((first, rest))
            }
            Err(stop) => Err(stop),
        },
        Err(stop) => Err(stop),
    }
}

#[tactic(auto, unfolding(crate::specs::Table::record_at, crate::specs::Table::named_blob_at))]
fn next(alloc: Global, bytes: &[u8]) -> Result<(CatalogRecord, &[u8]), Stop>
    ensures { IsRead (λ x. (x.0, x.1.now)) result (record_at (3 ∷ bytes.now)) }
{
    match name(alloc, bytes) {
        Ok((name, rest)) => match blob(alloc, rest) {
            Ok((directory, rest)) => Ok((CatalogRecord::Next { name, directory }, rest)),
            Err(stop) => Err(stop),
        },
        Err(stop) => Err(stop),
    }
}

#[tactic(auto, unfolding(crate::specs::Table::record_at))]
fn removed(alloc: Global, bytes: &[u8]) -> Result<(CatalogRecord, &[u8]), Stop>
    ensures { IsRead (λ x. (x.0, x.1.now)) result (record_at (4 ∷ bytes.now)) }
{
    match name(alloc, bytes) {
        Ok((name, rest)) => Ok((CatalogRecord::Remove { name }, rest)),
        Err(stop) => Err(stop),
    }
}

#[tactic(auto, unfolding(crate::specs::Table::record_at, crate::specs::Table::named_number_at))]
fn cut(alloc: Global, bytes: &[u8]) -> Result<(CatalogRecord, &[u8]), Stop>
    ensures { IsRead (λ x. (x.0, x.1.now)) result (record_at (5 ∷ bytes.now)) }
{
    match name(alloc, bytes) {
        Ok((name, rest)) => match u32_at(rest) {
            Ok((below, rest)) => Ok((CatalogRecord::RemoveVersions { name, below }, rest)),
            Err(stop) => Err(stop),
        },
        Err(stop) => Err(stop),
    }
}

/// What belongs to a kind of this number.
fn behind(alloc: Global, kind: u8, bytes: &[u8]) -> Result<(CatalogRecord, &[u8]), Stop>
    ensures { IsRead (λ x. (x.0, x.1.now)) result (record_at (kind ∷ bytes.now)) }
{
    match kind {
        1 => created(alloc, bytes),
        2 => first(alloc, bytes),
        3 => next(alloc, bytes),
        4 => removed(alloc, bytes),
        5 => cut(alloc, bytes),
        _ => Err(Stop::Left(bytes.len() + 1)),
    }
}

/// The number of a kind, and what belongs to it.
#[tactic(auto, unfolding(crate::specs::Table::record_at))]
fn fields(alloc: Global, bytes: &[u8]) -> Result<(CatalogRecord, &[u8]), Stop>
    ensures { IsRead (λ x. (x.0, x.1.now)) result (record_at bytes.now) }
{
    match bytes {
        [] => Err(Stop::Left(0)),
        [kind, rest @ ..] => behind(alloc, *kind, rest),
    }
}

/// A record, and nothing after it.
pub(crate) fn whole_record(alloc: Global, bytes: &[u8]) -> Result<CatalogRecord, Stop>
    ensures { IsRead (λ x. x) result (record_in bytes.now) }
{
    match fields(alloc, bytes) {
        Ok((entry, rest)) => {
            if rest.is_empty() {
                Ok(entry)
            } else {
                Err(Stop::Left(rest.len()))
            }
        }
        Err(stop) => Err(stop),
    }
}
