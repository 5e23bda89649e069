//! What is let go. That each can be let go is proved here once, and not again in each crate that calls this.

use crate::{Core, Entry, Ready, Used};
use std::snapshot::Snapshot;
use version_reaper::List;

/// Lets go what was seen. It may be anything, so that nothing of it has to be let go.
pub fn let_go_seen<T>(seen: Snapshot<T>) {
    drop(seen);
}

/// Lets entries go.
pub fn let_go_entries(entries: List<Entry>) {
    drop(entries);
}

/// Lets a core go.
pub fn let_go_core(core: Core) {
    drop(core);
}

/// Lets the pages of a commit go.
pub fn let_go_used(used: Used) {
    drop(used);
}

/// Lets a commit go that was made ready.
pub fn let_go_ready(ready: Ready) {
    drop(ready);
}
