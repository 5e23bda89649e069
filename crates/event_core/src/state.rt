//! What is known after some entries.
ghost use Rattle.std.specs.Prelude.{◌≡◌, IfOk};

use plan_changes::Names;
use version_reaper::{Copies, List, Memory, Name};

/// The pages of a version.
pub struct VersionPages {
    pub name: Name,
    pub version: u32,
    pub pages: List<u32>,
}

impl Drop for VersionPages {
    fn drop(self) {
        let VersionPages {
            name: _,
            version: _,
            pages: _,
        } = self;
    }
}

/// An open pin, with what could be named when it began.
pub struct CorePin {
    pub session: u32,
    /// The number of entries before it.
    pub place: u64,
    pub names: Names,
    pub pages: List<VersionPages>,
}

impl Drop for CorePin {
    fn drop(self) {
        let CorePin {
            session: _,
            place: _,
            names: _,
            pages: _,
        } = self;
    }
}

#[derive(Drop)]
pub struct Core {
    pub names: Names,
    /// The pages of the versions that can be named, in the order in which they came.
    pub pages: List<VersionPages>,
    /// The pages of the catalogue.
    pub catalogue: List<u32>,
    /// The open pins, in the order in which they came.
    pub pins: List<CorePin>,
    /// The free pages, rising.
    pub free: List<u32>,
    /// How many pages there may be.
    pub limit: u32,
    /// How many entries there were.
    pub entries: u64,
}

impl VersionPages {
    /// An equal value.
    pub fn copy(&self) -> Result<VersionPages, Memory>
        ensures { IfOk result (λ copy. copy ≡ self.now) }
    {
        Ok(VersionPages {
            name: self.name.copy()?,
            version: self.version,
            pages: self.pages.copy()?,
        })
    }
}

impl Copies for VersionPages {
    fn copy(&self) -> Result<VersionPages, Memory> {
        self.copy()
    }
}

impl CorePin {
    /// An equal pin.
    pub fn copy(&self) -> Result<CorePin, Memory>
        ensures { IfOk result (λ copy. copy ≡ self.now) }
    {
        Ok(CorePin {
            session: self.session,
            place: self.place,
            names: self.names.copy()?,
            pages: self.pages.copy()?,
        })
    }
}

impl Copies for CorePin {
    fn copy(&self) -> Result<CorePin, Memory> {
        self.copy()
    }
}

impl Core {
    /// An equal core.
    pub fn copy(&self) -> Result<Core, Memory>
        ensures { IfOk result (λ copy. copy ≡ self.now) }
    {
        Ok(Core {
            names: self.names.copy()?,
            pages: self.pages.copy()?,
            catalogue: self.catalogue.copy()?,
            pins: self.pins.copy()?,
            free: self.free.copy()?,
            limit: self.limit,
            entries: self.entries,
        })
    }
}
