//! All sessions of a store, each on a thread of its own, and the reaper beside them.
#![tactic(auto)]

mod desk;
mod reaper;
mod room;
mod run;

pub use afl_session::{Options, Style};
pub use run::run_sessions;
pub use run_opening::Streams;
