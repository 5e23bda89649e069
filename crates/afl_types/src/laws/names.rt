//! What checking reads of the names of the stored arrays.

mod laws;

pub use laws::{checked_changes_say_their_names, checking_reads_names};
