//! A chunk that was asked for.
ghost use Rattle.std.specs.Prelude.{◌≡◌, IsOk, IfOk};

use cell_values::{ChunkAt, Copies, Memory, copy_numbers};

/// A chunk that was asked for, and for which of a plan's leaves, which count from 0.
#[derive(Drop)]
pub struct Asked {
    pub leaf: u32,
    pub at: ChunkAt,
}

impl Copies for Asked {
    fn copy(&self) -> Result<Asked, Memory>
        ensures value { IfOk result (λ copy. copy ≡ self.now) }
        ensures succeeds { IsOk result }
    {
        Ok(Asked {
            leaf: self.leaf,
            at: copy_numbers(&self.at),
        })
    }
}
