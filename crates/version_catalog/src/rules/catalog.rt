//! Catalogues of stored arrays.
ghost use Rattle.std.specs.Prelude.{◌≡◌, IfOk};

use file_items::{Copies, List, Memory};
use plan_changes::NameEntry;

/// Some bytes of the file.
pub struct BlobAt {
    /// How many bytes there are.
    pub length: u64,
    /// The pages in which they lie, in order.
    pub pages: List<u32>,
}

impl Drop for BlobAt {
    fn drop(self) {
        let BlobAt {
            length: _,
            pages: _,
        } = self;
    }
}

/// A stored array, and where the directory of each of its versions lies.
pub struct CatalogArray {
    pub entry: NameEntry,
    /// One for each version, in the same order.
    pub directories: List<BlobAt>,
}

impl Drop for CatalogArray {
    fn drop(self) {
        let CatalogArray {
            entry: _,
            directories: _,
        } = self;
    }
}

/// The stored arrays, rising by name.
pub struct Catalog {
    pub arrays: List<CatalogArray>,
}

impl Drop for Catalog {
    fn drop(self) {
        let Catalog { arrays: _ } = self;
    }
}

impl BlobAt {
    /// An equal value.
    pub fn copy(&self) -> Result<BlobAt, Memory>
        ensures { IfOk result (λ copy. copy ≡ self.now) }
    {
        Ok(BlobAt {
            length: self.length,
            pages: self.pages.copy()?,
        })
    }
}

impl Copies for BlobAt {
    fn copy(&self) -> Result<BlobAt, Memory> {
        self.copy()
    }
}

impl CatalogArray {
    /// An equal value.
    pub fn copy(&self) -> Result<CatalogArray, Memory>
        ensures { IfOk result (λ copy. copy ≡ self.now) }
    {
        Ok(CatalogArray {
            entry: self.entry.copy()?,
            directories: self.directories.copy()?,
        })
    }
}

impl Copies for CatalogArray {
    fn copy(&self) -> Result<CatalogArray, Memory> {
        self.copy()
    }
}

impl Catalog {
    /// An equal catalogue.
    pub fn copy(&self) -> Result<Catalog, Memory>
        ensures { IfOk result (λ copy. copy ≡ self.now) }
    {
        Ok(Catalog {
            arrays: self.arrays.copy()?,
        })
    }
}

impl Copies for Catalog {
    fn copy(&self) -> Result<Catalog, Memory> {
        self.copy()
    }
}
