//! What the pieces of a backup have to do with the databases that they are of. No code has to be
//! run for it.
#![tactic(auto)]

mod laws;

pub use laws::{
    backups_are_of_one_database, backups_are_read, reads_are_backups, short_backups_are_counted,
    versions_fit,
};
