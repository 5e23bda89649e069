//! A log and its entries. Nothing here knows of threads.
ghost use Rattle.std.specs.Prelude.{◌≡◌, [], ◌∷◌, ◌++◌, OnOk, OnErr};
ghost use Rattle.test_commits.specs.Entries.{entry};

use cell_values::{List, Memory};
use std::alloc::Global;
use turn_lock::History;

/// What was appended, and the number of the seat that appended it.
#[derive(Clone, Copy)]
pub struct Entry {
    pub by: u32,
    pub content: u64,
}

/// The entries of a log, the first one first, and the number by which the log is known.
#[derive(Drop)]
pub struct Log {
    pub number: u64,
    pub entries: List<Entry>,
}

impl History for Log {
    ghost use Rattle.test_commits.specs.Entries.{owner_of};

    type Origin = u64;

    type Entry = Entry;

    ghost origin = { λ log. log.number };

    ghost entries = { λ log. log.entries };

    ghost owner = { owner_of };

    fn count(&self) -> u64 {
        self.entries.len() as u64
    }
}

impl Log {
    /// A log with no entries.
    pub fn new(alloc: Global, number: u64) -> Log
        ensures number { result.number ≡ number }
        ensures empty { result.entries ≡ [] }
    {
        Log {
            number,
            entries: List::new(alloc),
        }
    }

    /// Adds an entry at the end.
    pub(crate) fn push(&mut self, by: u32, content: u64) -> Result<(), Memory>
        ensures number { self.new.number ≡ self.old.number }
        ensures ok { OnOk result (self.new.entries ≡ self.old.entries ++ entry by content ∷ []) }
        ensures err { OnErr result (self.new.entries ≡ self.old.entries) }
    {
        self.entries.push(Entry { by, content })
    }
}
