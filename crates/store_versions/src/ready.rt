//! New versions, with the memory that a table needs for them.
ghost use Rattle.std.specs.Prelude.{◌≡◌, ◌≤◌, ◌<◌, [], ◌∷◌, ◌++◌, length, IfOk};

use crate::VersionRow;
use cell_values::{List, Memory, Name};
use chunk_map::Directory;
use std::alloc::Global;
use std::marker::Model;

/// Room for rows. Contracts see for how many.
#[derive(Drop)]
pub struct Room {
    items: Vec<VersionRow>,
}

impl Model for Room {
    ghost use Rattle.std.specs.Prelude.{◌≡◌, ℕ, [], vec_capacity};

    ghost Value = { ℕ };

    ghost view = { λ room. vec_capacity room.items };

    ghost invariant = { λ room. room.items.items ≡ [] };
}

impl Room {
    /// Room for so many rows.
    pub(crate) fn new(alloc: Global, count: usize) -> Result<Room, Memory>
        ensures { IfOk result (λ room. count ≤ room) }
    {
        Ok(Room {
            items: Vec::with_capacity(alloc, count)?,
        })
    }

    /// The rows and one more.
    pub(crate) fn fill(self, rows: List<VersionRow>, next: VersionRow) -> List<VersionRow>
        requires { length rows < self }
        ensures { result ≡ rows ++ next ∷ [] }
    {
        let Room { mut items } = self;
        let mut before = rows.into_vec();
        match items.append(&mut before) {
            Ok(()) => {
                items.push_reserved(next);
                List::from_vec(items)
            }
            Err(_) => unreachable!(),
        }
    }
}

/// A version that a commit is to make.
#[derive(Drop)]
pub struct ReadyVersion {
    pub room: Room,
    pub name: Name,
    pub version: u32,
    pub directory: Directory,
}
