//! What a record, or a change of the database, makes of the catalogue.

mod arrays;
mod changes;
mod laws;
mod rules;

pub use changes::{record_of, with_change, with_record};
pub use laws::{
    catalogs_follow_databases, changes_have_records, changes_keep_catalogs, names_are_kept,
    records_do_their_change, records_keep_catalogs, records_move_directories,
};
pub use rules::allowed;
