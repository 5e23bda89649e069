//! The script that `generate` runs.

mod laws;
mod script;

pub use laws::worked_script;
pub use script::script_of;
