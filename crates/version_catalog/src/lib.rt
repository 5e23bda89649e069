//! The catalogue of the stored arrays, the records of its changes, their bytes, and what a change makes of the catalogue.
#![tactic(auto)]

mod catalogs;
mod changing;
mod rules;

pub use catalogs::{BadCatalog, decode_catalog, decode_record, encode_catalog, encode_record};
pub use changing::{
    allowed, catalogs_follow_databases, changes_have_records, changes_keep_catalogs,
    names_are_kept, record_of, records_do_their_change, records_keep_catalogs,
    records_move_directories, with_change, with_record,
};
pub use rules::{BlobAt, Catalog, CatalogArray, CatalogRecord};
