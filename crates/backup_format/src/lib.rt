//! Backups of databases: their bytes, item by item, how they are written and read, and where the
//! first wrong item begins.
#![tactic(auto)]

mod arrays;
mod backup;
mod cores;
mod laws;
mod numbers;
mod overlaps;
mod payloads;
mod pieces;
mod versions;
mod writing;

pub use arrays::ArrayAt;
pub use backup::{BadBackup, decode_backup};
pub use cores::payload_of_cores;
pub use laws::{backups_have_parts, readings_are_spelled, worked_backups};
pub use pieces::PieceAt;
pub use versions::VersionPiecesAt;
pub use writing::{put_before_arrays, put_before_payload, put_before_pieces, put_before_versions};
