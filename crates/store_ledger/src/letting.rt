//! What is let go. That each can be let go is proved here once, and not again in each crate that calls this.

use crate::Ledger;
use event_core::let_go_entries;

/// Lets a ledger go.
pub fn let_go_ledger(ledger: Ledger) {
    let_go_entries(ledger.into_entries());
}
