//! Decoding catalogues and records.
ghost use Rattle.std.specs.Prelude.{◌≡◌, IfOk, Ok};
ghost use Rattle.version_catalog.specs.Catalogs.{IsCatalog, IsRecord};
ghost use Rattle.version_catalog.specs.Decoding.{Answers, Told};
ghost use Rattle.version_catalog.specs.Spelling.{spelling, spell_record};
ghost use Rattle.version_catalog.specs.Table.{catalog_in, record_in};
ghost use Rattle.version_catalog.specs.declared.rules.catalog.Catalog.{Catalog as ACatalog};
ghost use Rattle.version_catalog.specs.declared.rules.catalog_record.CatalogRecord.{CatalogRecord as ARecord};

use crate::catalogs::reading::catalog;
use crate::catalogs::records::whole_record;
use crate::rules::{Catalog, CatalogRecord};
use file_items::Stop;
use std::alloc::Global;

/// Why a catalogue or a record could not be decoded.
#[derive(Clone, Copy)]
pub enum BadCatalog {
    /// The offset of the first wrong item.
    At { at: u64 },
    Memory,
}

/// How a stop is told: by the offset from the front.
fn told(bytes: &[u8], stop: Stop) -> BadCatalog
    ensures { Told result bytes.now stop }
{
    match stop {
        Stop::Memory => BadCatalog::Memory,
        Stop::Left(left) => BadCatalog::At {
            at: bytes.len().saturating_sub(left) as u64,
        },
    }
}

/// The catalogue that these bytes spell. Bytes that spell none are refused at the offset of the first item that the rules do not
/// allow, that the end cuts, or that follows the last one.
pub fn decode_catalog(alloc: Global, bytes: &[u8]) -> Result<Catalog, BadCatalog>
    // What is answered is a catalogue that is spelled so.
    ensures rules { IfOk result IsCatalog }
    ensures spelled { IfOk result (λ catalog. bytes.now ≡ spelling catalog) }
    // A catalogue that is spelled so is answered, unless memory runs out.
    ensures only { (catalog : ACatalog) → IsCatalog catalog → bytes.now ≡ spelling catalog → Answers result bytes.now (Ok catalog) }
    // Which item is the first wrong one.
    ensures exact { Answers result bytes.now (catalog_in bytes.now) }
{
    match catalog(alloc, bytes) {
        Ok(catalog) => Ok(catalog),
        Err(stop) => Err(told(bytes, stop)),
    }
}

/// The record that these bytes spell, refused as `decode_catalog` refuses. Whether a catalogue allows it is not tested.
pub fn decode_record(alloc: Global, bytes: &[u8]) -> Result<CatalogRecord, BadCatalog>
    // What is answered is a record that is spelled so.
    ensures rules { IfOk result IsRecord }
    ensures spelled { IfOk result (λ entry. bytes.now ≡ spell_record entry) }
    // A record that is spelled so is answered, unless memory runs out.
    ensures only { (entry : ARecord) → IsRecord entry → bytes.now ≡ spell_record entry → Answers result bytes.now (Ok entry) }
    // Which item is the first wrong one.
    ensures exact { Answers result bytes.now (record_in bytes.now) }
{
    match whole_record(alloc, bytes) {
        Ok(entry) => Ok(entry),
        Err(stop) => Err(told(bytes, stop)),
    }
}
