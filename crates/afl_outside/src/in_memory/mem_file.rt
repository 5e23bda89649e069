//! A file in memory.
ghost use Rattle.std.specs.Prelude.{◌≡◌, IfOk};

use cell_values::{Bytes, Copies, List, Memory};

/// A file in memory, and the numbers, from 0, of the calls on it that are to fail.
#[derive(Drop)]
pub struct MemFile {
    pub name: Bytes,
    pub content: Bytes,
    pub fails: List<u64>,
}

impl MemFile {
    /// An equal file.
    pub fn copy(&self) -> Result<MemFile, Memory>
        ensures { IfOk result (λ copy. copy ≡ self.now) }
    {
        let fails = self.fails.copy()?;
        match self.name.copy() {
            Ok(name) => match self.content.copy() {
                Ok(content) => Ok(MemFile {
                    name,
                    content,
                    fails,
                }),
                Err(Memory) => {
                    drop(name);
                    drop(fails);
                    Err(Memory)
                }
            },
            Err(Memory) => {
                drop(fails);
                Err(Memory)
            }
        }
    }
}

impl Copies for MemFile {
    fn copy(&self) -> Result<MemFile, Memory> {
        self.copy()
    }
}
