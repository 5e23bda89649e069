//! The values of an attribute, one for each cell.
ghost use Rattle.std.specs.Prelude.{◌≡◌, ◌++◌, [], ◌∷◌, length, map, slice_index_or, OnOk, IfOk, IfSome};
ghost use Rattle.cell_values.specs.declared.datum.Datum.TheVariants.{Null, Int};
ghost use Rattle.array_rows.specs.CellFaults.{fault_of_value};
ghost use Rattle.array_rows.specs.Inner.Held.{values_in};
ghost use Rattle.array_rows.specs.Seen.{seen};

use crate::columns::{Small, fault_of_value, small_value};
use cell_values::{Copies, Datum, FaultKind, List, Memory};
use std::alloc::Global;
use std::marker::Model;

/// How the values are kept.
#[derive(Drop)]
pub enum Held {
    Numbers(List<i64>),
    Values(List<Datum>),
}

/// The values of an attribute. Contracts see the list of them; while all are numbers each takes eight bytes.
pub struct Column {
    held: Held,
}

impl Drop for Column {
    fn drop(self) {
        let Column { held: _ } = self;
    }
}

impl Model for Column {
    ghost use Rattle.std.specs.Prelude.{List as Items};
    ghost use Rattle.cell_values.specs.declared.datum.Datum.{Datum as Held_datum};

    ghost Value = { Items Held_datum };

    ghost use Rattle.array_rows.specs.Inner.Held.{values_in};

    ghost view = { λ column. values_in column.held };
}

/// The numbers as values.
fn general(numbers: &List<i64>) -> Result<List<Datum>, Memory>
    ensures { IfOk result (λ values. values ≡ map Int numbers.now) }
{
    let mut values = List::with_capacity(numbers.allocator(), numbers.len())?;
    for number in numbers.as_slice() {
        values.push(Datum::Int(*number))?;
    }
    Ok(values)
}

/// The numbers as values, and a value more.
fn general_more(numbers: &List<i64>, value: Datum) -> Result<Held, Memory>
    ensures { IfOk result (λ held. values_in held ≡ map Int numbers.now ++ value ∷ []) }
{
    let mut values = general(numbers)?;
    values.push(value)?;
    Ok(Held::Values(values))
}

fn push_held(held: &mut Held, value: Datum) -> Result<(), Memory>
    ensures { OnOk result (values_in held.new ≡ values_in held.old ++ value ∷ []) }
{
    match held {
        Held::Numbers(numbers) => match &value {
            Datum::Int(number) => numbers.push(*number),
            _ => {
                let more = general_more(numbers, value)?;
                *held = more;
                Ok(())
            }
        },
        Held::Values(values) => values.push(value),
    }
}

fn number_held(held: &Held, k: usize) -> Option<i64>
    ensures { IfSome result (λ number. slice_index_or (values_in held.now) k Null ≡ Int number) }
{
    match held {
        Held::Numbers(numbers) => match numbers.as_slice().get(k) {
            Some(number) => Some(*number),
            None => None,
        },
        Held::Values(values) => match values.as_slice().get(k) {
            Some(Datum::Int(number)) => Some(*number),
            _ => None,
        },
    }
}

fn small_held(held: &Held, k: usize) -> Small
    ensures { result ≡ seen (slice_index_or (values_in held.now) k Null) }
{
    match held {
        Held::Numbers(numbers) => match numbers.as_slice().get(k) {
            Some(number) => Small::Number(*number),
            None => Small::Other,
        },
        Held::Values(values) => match values.as_slice().get(k) {
            Some(value) => small_value(value),
            None => Small::Other,
        },
    }
}

#[tactic(auto, using(crate::proofs::FaultLaws::no_faulty_number))]
fn fault_held(held: &Held, k: usize) -> Option<FaultKind>
    ensures { result ≡ fault_of_value (slice_index_or (values_in held.now) k Null) }
{
    match held {
        Held::Numbers(_) => None,
        Held::Values(values) => match values.as_slice().get(k) {
            Some(value) => fault_of_value(value),
            None => None,
        },
    }
}

fn value_held(held: &Held, k: usize) -> Result<Datum, Memory>
    ensures { IfOk result (λ value. value ≡ slice_index_or (values_in held.now) k Null) }
{
    match held {
        Held::Numbers(numbers) => match numbers.as_slice().get(k) {
            Some(number) => Ok(Datum::Int(*number)),
            None => Ok(Datum::Null),
        },
        Held::Values(values) => match values.as_slice().get(k) {
            Some(value) => value.copy(),
            None => Ok(Datum::Null),
        },
    }
}

fn copy_held(held: &Held) -> Result<Held, Memory>
    ensures { IfOk result (λ copy. values_in copy ≡ values_in held.now) }
{
    match held {
        Held::Numbers(numbers) => Ok(Held::Numbers(numbers.copy()?)),
        Held::Values(values) => Ok(Held::Values(values.copy()?)),
    }
}

impl Column {
    /// No values.
    pub fn new(alloc: Global) -> Column
        ensures { result ≡ [] }
    {
        Column {
            held: Held::Numbers(List::new(alloc)),
        }
    }

    /// The numbers as values, without a copy.
    pub fn from_numbers(numbers: List<i64>) -> Column
        ensures { result ≡ map Int numbers }
    {
        Column {
            held: Held::Numbers(numbers),
        }
    }

    /// Adds a value at the end.
    pub fn push(&mut self, value: Datum) -> Result<(), Memory>
        ensures { OnOk result (self.new ≡ self.old ++ value ∷ []) }
    {
        push_held(&mut self.held, value)
    }

    /// The value at a place, null where there is none.
    pub fn value(&self, k: usize) -> Result<Datum, Memory>
        ensures { IfOk result (λ value. value ≡ slice_index_or self.now k Null) }
    {
        value_held(&self.held, k)
    }

    /// The value at a place where it is a number.
    pub fn number(&self, k: usize) -> Option<i64>
        ensures { IfSome result (λ number. slice_index_or self.now k Null ≡ Int number) }
    {
        number_held(&self.held, k)
    }

    /// The values, where they are kept as numbers.
    pub fn numbers(&self) -> Option<&[i64]>
        ensures { IfSome result (λ numbers. self.now ≡ map Int numbers.now) }
    {
        match &self.held {
            Held::Numbers(numbers) => Some(numbers.as_slice()),
            Held::Values(_) => None,
        }
    }

    /// The value at a place, where it is a number or a truth.
    pub fn small(&self, k: usize) -> Small
        ensures { result ≡ seen (slice_index_or self.now k Null) }
    {
        small_held(&self.held, k)
    }

    /// The kind of the value at a place where it is faulty.
    pub fn fault(&self, k: usize) -> Option<FaultKind>
        ensures { result ≡ fault_of_value (slice_index_or self.now k Null) }
    {
        fault_held(&self.held, k)
    }

    /// An equal column.
    pub fn copy(&self) -> Result<Column, Memory>
        ensures { IfOk result (λ copy. copy ≡ self.now) }
    {
        Ok(Column {
            held: copy_held(&self.held)?,
        })
    }
}

impl Copies for Column {
    fn copy(&self) -> Result<Column, Memory> {
        self.copy()
    }
}
