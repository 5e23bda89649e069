//! The catalogue of the stored arrays, and the records of its changes.

mod catalog;
mod catalog_record;

pub use catalog::{BlobAt, Catalog, CatalogArray};
pub use catalog_record::CatalogRecord;
pub(crate) use catalog_record::{
    created_record, cut_record, first_record, next_record, removed_record,
};
