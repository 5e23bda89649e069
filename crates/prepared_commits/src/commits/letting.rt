//! What is let go. That each can be let go is proved here once, and not again in each crate that calls this.

use plan_changes::{Change, let_go_change};

/// Lets a change go that may be in doubt.
pub fn let_go_doubt(doubt: Option<Change>) {
    match doubt {
        Some(change) => let_go_change(change),
        None => {}
    }
}
