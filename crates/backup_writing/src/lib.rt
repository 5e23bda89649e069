//! Writing backups: what a source of chunks has of the versions of some names goes to a sink, chunk
//! by chunk, and the digest behind it.
#![tactic(auto)]

mod arrays;
mod backup;
mod digest_sink;
mod laws;
mod pieces;
mod stop;
mod versions;

pub use backup::write_backup;
pub use laws::backups_are_of_databases;
pub use stop::WriteStop;
