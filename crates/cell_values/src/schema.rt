//! The schemas of arrays.
ghost use Rattle.std.specs.Prelude.{◌≡◌, IsOk, IfOk};

use crate::coord::copy_coord;
use crate::{Coord, Copies, List, Memory, Name};

/// Of which values an attribute is.
#[derive(Clone, Copy)]
pub enum Kind {
    Int64,
    Str,
    Bool,
}

pub struct Attribute {
    pub name: Name,
    pub kind: Kind,
    /// Whether a cell may hold a null here.
    pub nullable: bool,
}

impl Drop for Attribute {
    fn drop(self) {
        let Attribute {
            name: _,
            kind: _,
            nullable: _,
        } = self;
    }
}

/// A dimension with the places `lo` to `hi`, cut into chunks.
pub struct Dimension {
    pub name: Name,
    pub lo: i64,
    /// The last place; 4611686018427387903 is written `*`.
    pub hi: i64,
    /// How many places a chunk has.
    pub chunk: u64,
    /// How many places a chunk shares with each neighbour.
    pub overlap: u64,
}

impl Drop for Dimension {
    fn drop(self) {
        let Dimension {
            name: _,
            lo: _,
            hi: _,
            chunk: _,
            overlap: _,
        } = self;
    }
}

pub struct Schema {
    pub attributes: List<Attribute>,
    pub dimensions: List<Dimension>,
}

impl Drop for Schema {
    fn drop(self) {
        let Schema {
            attributes: _,
            dimensions: _,
        } = self;
    }
}

/// A box of coordinates, both corners included. Where some `lo` is above its `hi`, it holds none.
#[derive(Drop)]
pub struct Bounds {
    pub lo: Coord,
    pub hi: Coord,
}

impl Attribute {
    /// An equal attribute.
    pub fn copy(&self) -> Result<Attribute, Memory>
        ensures { IfOk result (λ copy. copy ≡ self.now) }
    {
        Ok(Attribute {
            name: self.name.copy()?,
            kind: self.kind,
            nullable: self.nullable,
        })
    }
}

impl Copies for Attribute {
    fn copy(&self) -> Result<Attribute, Memory> {
        self.copy()
    }
}

impl Dimension {
    /// An equal dimension.
    pub fn copy(&self) -> Result<Dimension, Memory>
        ensures { IfOk result (λ copy. copy ≡ self.now) }
    {
        Ok(Dimension {
            name: self.name.copy()?,
            lo: self.lo,
            hi: self.hi,
            chunk: self.chunk,
            overlap: self.overlap,
        })
    }
}

impl Copies for Dimension {
    fn copy(&self) -> Result<Dimension, Memory> {
        self.copy()
    }
}

impl Schema {
    /// The attributes and the dimensions.
    pub fn into_parts(self) -> (List<Attribute>, List<Dimension>)
        ensures attributes { result.0 ≡ self.attributes }
        ensures dimensions { result.1 ≡ self.dimensions }
    {
        let Schema {
            attributes,
            dimensions,
        } = self;
        (attributes, dimensions)
    }

    /// An equal schema.
    pub fn copy(&self) -> Result<Schema, Memory>
        ensures { IfOk result (λ copy. copy ≡ self.now) }
    {
        Ok(Schema {
            attributes: self.attributes.copy()?,
            dimensions: self.dimensions.copy()?,
        })
    }
}

impl Bounds {
    /// An equal box, which takes no memory.
    pub fn copy(&self) -> Result<Bounds, Memory>
        ensures value { IfOk result (λ copy. copy ≡ self.now) }
        ensures succeeds { IsOk result }
    {
        Ok(Bounds {
            lo: copy_coord(&self.lo),
            hi: copy_coord(&self.hi),
        })
    }
}

impl Copies for Kind {
    fn copy(&self) -> Result<Kind, Memory>
        ensures value { IfOk result (λ copy. copy ≡ self.now) }
        ensures succeeds { IsOk result }
    {
        Ok(*self)
    }
}

impl Copies for Schema {
    fn copy(&self) -> Result<Schema, Memory> {
        self.copy()
    }
}

impl Copies for Bounds {
    fn copy(&self) -> Result<Bounds, Memory>
        ensures value { IfOk result (λ copy. copy ≡ self.now) }
        ensures succeeds { IsOk result }
    {
        self.copy()
    }
}
