//! What can happen to a store.
ghost use Rattle.std.specs.Prelude.{◌≡◌, IfOk};

use plan_changes::Change;
use version_reaper::{Copies, List, Memory};

/// The pages of a commit.
pub struct Used {
    /// All pages of the new version, those that it shares with another one too.
    pub version: List<u32>,
    /// All pages of the catalogue after the commit.
    pub catalogue: List<u32>,
}

impl Drop for Used {
    fn drop(self) {
        let Used {
            version: _,
            catalogue: _,
        } = self;
    }
}

#[derive(Drop)]
pub enum Entry {
    /// A session begins to see what can be named now.
    Pin {
        session: u32,
    },
    /// It ends to see that.
    Unpin {
        session: u32,
    },
    Commit {
        session: u32,
        change: Change,
        used: Used,
    },
    /// All pages that nobody can name become free.
    Reap,
}

impl Used {
    /// Equal lists of pages.
    pub fn copy(&self) -> Result<Used, Memory>
        ensures { IfOk result (λ copy. copy ≡ self.now) }
    {
        Ok(Used {
            version: self.version.copy()?,
            catalogue: self.catalogue.copy()?,
        })
    }
}

impl Entry {
    /// An equal entry.
    pub fn copy(&self) -> Result<Entry, Memory>
        ensures { IfOk result (λ copy. copy ≡ self.now) }
    {
        match self {
            Entry::Pin { session } => Ok(Entry::Pin { session: *session }),
            Entry::Unpin { session } => Ok(Entry::Unpin { session: *session }),
            Entry::Commit {
                session,
                change,
                used,
            } => {
                let used = used.copy()?;
                Ok(Entry::Commit {
                    session: *session,
                    change: change.copy()?,
                    used,
                })
            }
            Entry::Reap => Ok(Entry::Reap),
        }
    }
}

impl Copies for Entry {
    fn copy(&self) -> Result<Entry, Memory> {
        self.copy()
    }
}
