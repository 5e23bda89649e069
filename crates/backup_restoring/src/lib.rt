//! Making a database of a backup: the whole stream is read and tested before the first page is
//! written, and whatever a crash leaves afterwards is the backup's database.
#![tactic(auto)]

mod arrays;
mod base;
mod counting;
mod fault;
mod laws;
mod making;
mod pages;
mod reading;
mod restoring;
mod versions;

pub use fault::RestoreFault;
pub use laws::backups_are_restored;
pub use restoring::restore;
