//! The parts of plans besides their sources.
ghost use Rattle.std.specs.Prelude.{◌≡◌, IsOk, IfOk};

use cell_values::{Copies, Kind, Memory, Name, Schema};
use expr_nulls::TypedExpr;

/// What an aggregate tells of a list of cells.
#[derive(Clone, Copy)]
pub enum AggFunction {
    Sum,
    /// How many values are not null.
    Count,
    /// How many cells there are.
    CountAll,
    Min,
    Max,
}

/// An aggregate of an attribute, and the name of its result.
pub struct Aggregate {
    pub function: AggFunction,
    /// The place of the attribute, from 0; `CountAll` does not look at it.
    pub attribute: u32,
    pub name: Name,
}

impl Drop for Aggregate {
    fn drop(self) {
        let Aggregate {
            function: _,
            attribute: _,
            name: _,
        } = self;
    }
}

/// A version of a stored array.
pub struct Leaf {
    pub name: Name,
    /// From 1; 0 stands for an array without versions, which has no cells.
    pub version: u32,
    pub schema: Schema,
}

impl Drop for Leaf {
    fn drop(self) {
        let Leaf {
            name: _,
            version: _,
            schema: _,
        } = self;
    }
}

/// An attribute with the value of an expression.
pub struct Applied {
    pub name: Name,
    pub kind: Kind,
    pub value: TypedExpr,
}

impl Drop for Applied {
    fn drop(self) {
        let Applied {
            name: _,
            kind: _,
            value: _,
        } = self;
    }
}

/// A dimension held at a number.
#[derive(Clone, Copy)]
pub struct Fixed {
    /// The place of the dimension, from 0.
    pub dimension: u32,
    pub at: i64,
}

/// Two dimensions in which coordinates are to agree.
#[derive(Clone, Copy)]
pub struct Pair {
    /// The place of the left one's dimension, from 0.
    pub left: u32,
    /// The place of the right one's dimension, from 0.
    pub right: u32,
}

/// How far a window reaches along a dimension.
#[derive(Clone, Copy)]
pub struct Reach {
    pub before: u64,
    pub after: u64,
}

impl Aggregate {
    /// An equal aggregate.
    pub fn copy(&self) -> Result<Aggregate, Memory>
        ensures { IfOk result (λ copy. copy ≡ self.now) }
    {
        Ok(Aggregate {
            function: self.function,
            attribute: self.attribute,
            name: self.name.copy()?,
        })
    }
}

impl Leaf {
    /// An equal leaf.
    pub fn copy(&self) -> Result<Leaf, Memory>
        ensures { IfOk result (λ copy. copy ≡ self.now) }
    {
        Ok(Leaf {
            name: self.name.copy()?,
            version: self.version,
            schema: self.schema.copy()?,
        })
    }
}

impl Applied {
    /// An equal attribute with an equal value.
    pub fn copy(&self) -> Result<Applied, Memory>
        ensures { IfOk result (λ copy. copy ≡ self.now) }
    {
        Ok(Applied {
            name: self.name.copy()?,
            kind: self.kind,
            value: self.value.copy()?,
        })
    }
}

impl Copies for Aggregate {
    fn copy(&self) -> Result<Aggregate, Memory> {
        self.copy()
    }
}

impl Copies for Leaf {
    fn copy(&self) -> Result<Leaf, Memory> {
        self.copy()
    }
}

impl Copies for Applied {
    fn copy(&self) -> Result<Applied, Memory> {
        self.copy()
    }
}

impl Copies for Fixed {
    fn copy(&self) -> Result<Fixed, Memory>
        ensures value { IfOk result (λ copy. copy ≡ self.now) }
        ensures succeeds { IsOk result }
    {
        Ok(*self)
    }
}

impl Copies for Pair {
    fn copy(&self) -> Result<Pair, Memory>
        ensures value { IfOk result (λ copy. copy ≡ self.now) }
        ensures succeeds { IsOk result }
    {
        Ok(*self)
    }
}

impl Copies for Reach {
    fn copy(&self) -> Result<Reach, Memory>
        ensures value { IfOk result (λ copy. copy ≡ self.now) }
        ensures succeeds { IsOk result }
    {
        Ok(*self)
    }
}
