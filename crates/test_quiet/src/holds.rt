//! What a session has of a store.

use store_ledger::Pinned;

/// What a session has of a store.
#[derive(Drop)]
pub enum Hold {
    Free,
    /// A pin under which no commit was tried, and, of a shared store, nothing was read.
    Pinned(Pinned),
    /// A pin under which one was, or something was.
    Tried(Pinned),
}
