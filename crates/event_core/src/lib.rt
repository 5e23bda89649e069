//! The core: what each list of pins, unpins, commits and reaps makes of names, pins and pages.
#![tactic(auto)]

mod advance;
mod commit;
mod entry;
mod letting;
mod marks;
mod next;
mod ready;
mod reap;
mod run;
mod state;

pub use commit::fresh_pages;
pub use entry::{Entry, Used};
pub use letting::{let_go_core, let_go_entries, let_go_ready, let_go_seen, let_go_used};
pub use ready::Ready;
pub use run::{run_events, step};
pub use state::{Core, CorePin, VersionPages};
