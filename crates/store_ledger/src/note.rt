//! What is noted beside the entries.

ghost use Rattle.std.specs.Prelude.{◌≡◌};
ghost use Rattle.store_ledger.specs.Ledger.{is_fault, is_tried};

use event_core::let_go_seen;
use std::snapshot::Snapshot;
use store_versions::Change;

/// What a note says of its session.
pub enum NoteKind {
    /// The device failed under its pin.
    Fault,
    /// A commit of this change was tried under its pin. The snapshot has no bytes.
    Tried(Snapshot<Change>),
}

impl Drop for NoteKind {
    fn drop(self) {
        match self {
            NoteKind::Fault => {}
            NoteKind::Tried(change) => let_go_seen(change),
        }
    }
}

impl NoteKind {
    /// Whether it says that the device failed.
    pub fn is_fault(&self) -> bool
        ensures { result ≡ is_fault self.now }
    {
        match self {
            NoteKind::Fault => true,
            NoteKind::Tried(_) => false,
        }
    }

    /// Whether it says that a commit was tried.
    pub fn is_tried(&self) -> bool
        ensures { result ≡ is_tried self.now }
    {
        match self {
            NoteKind::Fault => false,
            NoteKind::Tried(_) => true,
        }
    }
}

#[derive(Drop)]
pub struct Note {
    pub session: u32,
    pub kind: NoteKind,
    /// How many entries were before it.
    pub after: u64,
}
