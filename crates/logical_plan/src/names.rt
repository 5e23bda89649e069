//! The names of the arrays that a statement may speak of.
ghost use Rattle.std.specs.Prelude.{◌≡◌, IfOk};

use cell_values::{Copies, List, Memory, Name, Schema};

/// A stored array.
pub struct NameEntry {
    pub name: Name,
    pub schema: Schema,
    /// The number of its next version, from 1.
    pub next: u32,
    /// The numbers of its versions, rising, each below `next`.
    pub versions: List<u32>,
}

impl Drop for NameEntry {
    fn drop(self) {
        let NameEntry {
            name: _,
            schema: _,
            next: _,
            versions: _,
        } = self;
    }
}

/// The stored arrays, rising by name.
#[derive(Drop)]
pub struct Names {
    pub arrays: List<NameEntry>,
}

impl NameEntry {
    /// An equal entry.
    pub fn copy(&self) -> Result<NameEntry, Memory>
        ensures { IfOk result (λ copy. copy ≡ self.now) }
    {
        Ok(NameEntry {
            name: self.name.copy()?,
            schema: self.schema.copy()?,
            next: self.next,
            versions: self.versions.copy()?,
        })
    }
}

impl Copies for NameEntry {
    fn copy(&self) -> Result<NameEntry, Memory> {
        self.copy()
    }
}

impl Names {
    /// Equal names.
    pub fn copy(&self) -> Result<Names, Memory>
        ensures { IfOk result (λ copy. copy ≡ self.now) }
    {
        Ok(Names {
            arrays: self.arrays.copy()?,
        })
    }
}
