//! Values, cells and rows.
ghost use Rattle.std.specs.Prelude.{◌≡◌, ◌≤◌, ◌↔◌, IsSome, IfSome, IsOk, IfOk};
ghost use Rattle.cell_values.specs.Nulls.{is_null};

use crate::coord::copy_coord;
use crate::{Bytes, Coord, Copies, List, Memory};
use std::marker::Model;

/// Why a value or a cell could not be computed.
#[derive(Clone, Copy)]
pub enum FaultKind {
    Overflow,
    DivideByZero,
    OutOfBounds,
    Collision,
    NullInNotNull,
}

/// The reason of a null: a number from 1 to 127.
#[derive(Clone, Copy)]
pub struct Code {
    number: u8,
}

impl Model for Code {
    ghost use Rattle.std.specs.Prelude.{ℕ, ◌≤◌};

    ghost Value = { ℕ };

    ghost view = { λ code. code.number };

    ghost invariant = { λ code. (1 ≤ code.number) × (code.number ≤ 127) };

    ghost inverse = { λ number. record { number = number } };
}

impl Code {
    /// The code of this number. None where the number is 0 or above 127.
    pub fn new(number: u8) -> Option<Code>
        ensures valid { IsSome result ↔ ((1 ≤ number) × (number ≤ 127)) }
        ensures same { IfSome result (λ code. code ≡ number) }
    {
        if 1 <= number && number <= 127 {
            Some(Code { number })
        } else {
            None
        }
    }

    /// The number, from 1 to 127.
    pub fn number(&self) -> u8
        ensures value { result ≡ self.now }
        ensures range { (1 ≤ result) × (result ≤ 127) }
    {
        self.number
    }
}

/// A value of an attribute.
pub enum Datum {
    /// Null without a reason, which counts as code 0.
    Null,
    /// Null for a reason.
    Missing(Code),
    Int(i64),
    Text(Bytes),
    Truth(bool),
    Bad(FaultKind),
}

impl Drop for Datum {
    fn drop(self) {
        match self {
            Datum::Null => {}
            Datum::Missing(_) => {}
            Datum::Int(_) => {}
            Datum::Text(_) => {}
            Datum::Truth(_) => {}
            Datum::Bad(_) => {}
        }
    }
}

/// What an array holds at a coordinate.
#[derive(Drop)]
pub enum Cell {
    /// A value for each attribute.
    Full(List<Datum>),
    /// A fault leaves open whether the cell is there.
    Doubt(FaultKind),
}

#[derive(Drop)]
pub struct Row {
    pub at: Coord,
    pub cell: Cell,
}

/// Why an array as a whole could not be computed, and at which cell of its source.
#[derive(Drop)]
pub struct Broken {
    pub at: Coord,
    pub kind: FaultKind,
}

#[derive(Clone, Copy)]
pub enum CompareOp {
    Equal,
    Differs,
    Less,
    AtMost,
    More,
    AtLeast,
}

impl Datum {
    /// Whether the value is null, of whatever code.
    pub fn is_null(&self) -> bool
        ensures { result ≡ is_null self.now }
    {
        matches!(self, Datum::Null | Datum::Missing(_))
    }

    /// An equal value.
    pub fn copy(&self) -> Result<Datum, Memory>
        ensures { IfOk result (λ copy. copy ≡ self.now) }
    {
        Ok(match self {
            Datum::Null => Datum::Null,
            Datum::Missing(code) => Datum::Missing(*code),
            Datum::Int(number) => Datum::Int(*number),
            Datum::Text(text) => Datum::Text(text.copy()?),
            Datum::Truth(truth) => Datum::Truth(*truth),
            Datum::Bad(kind) => Datum::Bad(*kind),
        })
    }
}

impl Cell {
    /// An equal cell.
    pub fn copy(&self) -> Result<Cell, Memory>
        ensures { IfOk result (λ copy. copy ≡ self.now) }
    {
        Ok(match self {
            Cell::Full(values) => Cell::Full(values.copy()?),
            Cell::Doubt(kind) => Cell::Doubt(*kind),
        })
    }
}

impl Row {
    /// An equal row.
    pub fn copy(&self) -> Result<Row, Memory>
        ensures { IfOk result (λ copy. copy ≡ self.now) }
    {
        Ok(Row {
            at: copy_coord(&self.at),
            cell: self.cell.copy()?,
        })
    }
}

impl Broken {
    /// An equal value, which takes no memory.
    pub fn copy(&self) -> Result<Broken, Memory>
        ensures value { IfOk result (λ copy. copy ≡ self.now) }
        ensures succeeds { IsOk result }
    {
        Ok(Broken {
            at: copy_coord(&self.at),
            kind: self.kind,
        })
    }
}

impl Copies for Code {
    fn copy(&self) -> Result<Code, Memory>
        ensures value { IfOk result (λ copy. copy ≡ self.now) }
        ensures succeeds { IsOk result }
    {
        Ok(*self)
    }
}

impl Copies for FaultKind {
    fn copy(&self) -> Result<FaultKind, Memory>
        ensures value { IfOk result (λ copy. copy ≡ self.now) }
        ensures succeeds { IsOk result }
    {
        Ok(*self)
    }
}

impl Copies for Datum {
    fn copy(&self) -> Result<Datum, Memory> {
        self.copy()
    }
}

impl Copies for Cell {
    fn copy(&self) -> Result<Cell, Memory> {
        self.copy()
    }
}

impl Copies for Row {
    fn copy(&self) -> Result<Row, Memory> {
        self.copy()
    }
}

impl Copies for Broken {
    fn copy(&self) -> Result<Broken, Memory>
        ensures value { IfOk result (λ copy. copy ≡ self.now) }
        ensures succeeds { IsOk result }
    {
        self.copy()
    }
}
