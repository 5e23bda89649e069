//! Rows of values, in columns.
ghost use Rattle.std.specs.Prelude.{◌≡◌, ◌<◌, true, [], ◌∷◌, ◌++◌, length, map, cond, slice_index_or, OnOk, OnErr, IfOk, IfSome};
ghost use Rattle.cell_values.specs.declared.datum.Datum.TheVariants.{Null, Int};
ghost use Rattle.array_rows.specs.Boxes.{by_pairs};
ghost use Rattle.array_rows.specs.CellFaults.{fault_of_values};
ghost use Rattle.array_rows.specs.RowsIn.{rows_in, AreLong};
ghost use Rattle.array_rows.specs.Seen.{seen};

use crate::columns::faults::fault_in;
use crate::columns::filling::{
    copy_columns, empty_columns, number_in, push_each, push_first, push_place, push_places,
    small_in, values_at,
};
use crate::columns::{Column, Small};
use cell_values::{Datum, FaultKind, List, Memory};
use std::alloc::Global;
use std::marker::Model;

/// Rows of values. Contracts see the list of them; each place of a row has a column.
pub struct Rows {
    count: usize,
    columns: Vec<Column>,
}

impl Drop for Rows {
    fn drop(self) {
        let Rows {
            count: _,
            columns: _,
        } = self;
    }
}

impl Model for Rows {
    ghost use Rattle.std.specs.Prelude.{List as Items};
    ghost use Rattle.cell_values.specs.declared.datum.Datum.{Datum as Value_of_cell};

    ghost Value = { Items (Items Value_of_cell) };

    ghost use Rattle.array_rows.specs.RowsIn.{rows_in, AreLong};

    ghost view = { λ rows. rows_in rows.count rows.columns.items };

    ghost invariant = { λ rows. AreLong rows.count rows.columns.items };
}

/// Whether a row of this width has its columns. Where there is no row yet, they are made.
fn fit(columns: &mut Vec<Column>, count: usize, width: usize) -> Result<bool, Memory>
    requires { AreLong count columns.old.items }
    ensures long { AreLong count columns.new.items }
    ensures rows { rows_in count columns.new.items ≡ rows_in count columns.old.items }
    ensures width { IfOk result (λ fits. fits ≡ true → length columns.new.items ≡ width) }
{
    if columns.len() == width {
        return Ok(true);
    }
    if count != 0 {
        return Ok(false);
    }
    let made = empty_columns(*columns.allocator(), width)?;
    *columns = made;
    Ok(true)
}

impl Rows {
    /// No rows.
    pub fn new(alloc: Global) -> Rows
        ensures { result ≡ [] }
    {
        Rows {
            count: 0,
            columns: Vec::new(alloc),
        }
    }

    /// The rows of columns that each have so many values.
    pub fn from_columns(columns: Vec<Column>, count: usize) -> Rows
        requires { AreLong count columns.items }
        ensures { result ≡ rows_in count columns.items }
    {
        Rows { count, columns }
    }

    /// How many rows there are.
    pub fn len(&self) -> usize
        ensures { result ≡ length self.now }
    {
        self.count
    }

    /// The row at a place.
    pub fn row(&self, k: usize) -> Result<List<Datum>, Memory>
        requires { k < length self.now }
        ensures { IfOk result (λ row. row ≡ slice_index_or self.now k []) }
    {
        values_at(*self.columns.allocator(), self.columns.as_slice(), k)
    }

    /// An equal value.
    pub fn copy(&self) -> Result<Rows, Memory>
        ensures { IfOk result (λ copy. copy ≡ self.now) }
    {
        let columns = copy_columns(*self.columns.allocator(), self.columns.as_slice())?;
        Ok(Rows {
            count: self.count,
            columns,
        })
    }

    /// Adds a row, where it is as wide as the rows before. Where memory fails no row may be left.
    pub fn push(&mut self, values: &[Datum]) -> Result<bool, Memory>
        ensures { IfOk result (λ taken. self.new ≡ cond taken (self.old ++ values.now ∷ []) self.old) }
    {
        if !fit(&mut self.columns, self.count, values.len())? {
            return Ok(false);
        }
        let Some(next) = self.count.checked_add(1) else {
            return Err(Memory);
        };
        match push_each(&mut self.columns, values) {
            Ok(()) => {
                self.count = next;
                Ok(true)
            }
            Err(error) => {
                self.columns.clear();
                self.count = 0;
                Err(error)
            }
        }
    }

    /// Adds a row of one number at the end, as `push` does.
    pub fn push_number(&mut self, number: i64) -> Result<bool, Memory>
        ensures { IfOk result (λ taken. self.new ≡ cond taken (self.old ++ (Int number ∷ []) ∷ []) self.old) }
    {
        if !fit(&mut self.columns, self.count, 1)? {
            return Ok(false);
        }
        let Some(next) = self.count.checked_add(1) else {
            return Err(Memory);
        };
        match push_first(&mut self.columns, number) {
            Ok(()) => {
                self.count = next;
                Ok(true)
            }
            Err(error) => {
                self.columns.clear();
                self.count = 0;
                Err(error)
            }
        }
    }

    /// Adds a row of others, where it is as wide as the rows before. Where memory fails no row may be left.
    pub fn push_row(&mut self, from: &Rows, k: usize) -> Result<bool, Memory>
        requires { k < length from.now }
        ensures { IfOk result (λ taken. self.new ≡ cond taken (self.old ++ slice_index_or from.now k [] ∷ []) self.old) }
    {
        if !fit(&mut self.columns, self.count, from.columns.len())? {
            return Ok(false);
        }
        let Some(next) = self.count.checked_add(1) else {
            return Err(Memory);
        };
        match push_place(&mut self.columns, from.columns.as_slice(), k) {
            Ok(()) => {
                self.count = next;
                Ok(true)
            }
            Err(error) => {
                self.columns.clear();
                self.count = 0;
                Err(error)
            }
        }
    }

    /// Adds a row of some and behind it one of others as a row, as `push` does.
    pub fn push_both(
        &mut self,
        left: &Rows,
        i: usize,
        right: &Rows,
        j: usize,
    ) -> Result<bool, Memory>
        requires left { i < length left.now }
        requires right { j < length right.now }
        ensures { IfOk result (λ taken. self.new ≡ cond taken (self.old ++ (slice_index_or left.now i [] ++ slice_index_or right.now j []) ∷ []) self.old) }
    {
        let Some(width) = left.columns.len().checked_add(right.columns.len()) else {
            return Err(Memory);
        };
        if !fit(&mut self.columns, self.count, width)? {
            return Ok(false);
        }
        let Some(next) = self.count.checked_add(1) else {
            return Err(Memory);
        };
        match push_places(
            &mut self.columns,
            left.columns.as_slice(),
            i,
            right.columns.as_slice(),
            j,
        ) {
            Ok(()) => {
                self.count = next;
                Ok(true)
            }
            Err(error) => {
                self.columns.clear();
                self.count = 0;
                Err(error)
            }
        }
    }

    /// Adds the values of others behind those of these rows, row by row.
    pub fn append_columns(&mut self, more: Rows) -> Result<(), Memory>
        requires { length more ≡ length self.old }
        ensures ok { OnOk result (self.new ≡ by_pairs (λ row others. row ++ others) self.old more) }
        ensures err { OnErr result (self.new ≡ self.old) }
    {
        let Rows {
            count: _,
            mut columns,
        } = more;
        self.columns.append(&mut columns)?;
        Ok(())
    }

    /// The value in a place of a row, where it is a number or a truth.
    pub fn small(&self, place: usize, k: usize) -> Small
        requires { k < length self.now }
        ensures { result ≡ seen (slice_index_or (slice_index_or self.now k []) place Null) }
    {
        small_in(self.columns.as_slice(), place, k)
    }

    /// The number in a place of a row, where it is one.
    pub fn number(&self, place: usize, k: usize) -> Option<i64>
        requires { k < length self.now }
        ensures { IfSome result (λ number. slice_index_or (slice_index_or self.now k []) place Null ≡ Int number) }
    {
        number_in(self.columns.as_slice(), place, k)
    }

    /// The first fault among the values of a row.
    pub fn fault(&self, k: usize) -> Option<FaultKind>
        requires { k < length self.now }
        ensures { result ≡ fault_of_values (slice_index_or self.now k []) }
    {
        fault_in(self.columns.as_slice(), k)
    }

    /// The values in a place of all rows, where they are kept as numbers.
    pub fn numbers(&self, place: usize) -> Option<&[i64]>
        ensures { IfSome result (λ numbers. map (λ row. slice_index_or row place Null) self.now ≡ map Int numbers.now) }
    {
        let columns = self.columns.as_slice();
        if place < columns.len() {
            columns[place].numbers()
        } else {
            None
        }
    }
}
