//! What contracts see of a store's entries and notes.

use chunk_map::Directory;
use event_core::Entry;
use store_ledger::Note;

/// An event of a store. No value of it is made: it is what the entries of a store that is shared are seen as.
#[derive(Drop)]
pub enum Event {
    Entered(Entry),
    /// A commit, with the disk's moment at which it was acknowledged and the directory of the version that it made.
    Acknowledged(Entry, u64, Directory),
    Noted(Note),
}
