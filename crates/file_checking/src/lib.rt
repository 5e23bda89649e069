//! Whether a file is sound: whether all that it keeps is that of a database.
#![tactic(auto)]

mod checking;
mod counting;
mod laws;
mod overlaps;
mod payloads;
mod sound;
mod versions;

pub use checking::check_file;
pub use laws::{
    checked_files_stand, checked_versions_hold, held_versions_check, standing_files_pass,
    worked_checks,
};
pub use sound::{CheckFault, Sound};
