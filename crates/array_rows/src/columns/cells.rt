//! The cells of a chunk.
ghost use Rattle.std.specs.Prelude.{◌≡◌, ◌<◌, [], ◌∷◌, ◌++◌, length, map, slice_index_or, OnOk, IfOk, IfSome};
ghost use Rattle.cell_values.specs.declared.datum.Cell.TheVariants.{Full};
ghost use Rattle.cell_values.specs.declared.datum.Datum.TheVariants.{Int};
ghost use Rattle.array_rows.specs.CellFaults.{fault_of_cell};
ghost use Rattle.array_rows.specs.Inner.CellsIn.{cells_in, value_in};

use crate::columns::Rows;
use crate::columns::forms::{
    Form, cell_in, copy_form, count_in, fault_at, list_of, numbers_in, push_both_form, push_form,
    push_number_form, push_row_form, push_values_form,
};
use cell_values::{Cell, Copies, Datum, FaultKind, List, Memory};
use std::alloc::Global;
use std::marker::Model;

/// Cells. Contracts see the list of them.
pub struct Cells {
    alloc: Global,
    form: Form,
}

impl Drop for Cells {
    fn drop(self) {
        let Cells { alloc: _, form: _ } = self;
    }
}

impl Model for Cells {
    ghost use Rattle.std.specs.Prelude.{List as Items};
    ghost use Rattle.cell_values.specs.declared.datum.Cell.{Cell as OneCell};

    ghost Value = { Items OneCell };

    ghost use Rattle.array_rows.specs.Inner.CellsIn.{cells_in};

    ghost view = { λ cells. cells_in cells.form };
}

impl Cells {
    /// No cells.
    pub fn new(alloc: Global) -> Cells
        ensures { result ≡ [] }
    {
        Cells {
            alloc,
            form: Form::Even(Rows::new(alloc)),
        }
    }

    /// Cells with the values of these rows.
    pub fn from_rows(alloc: Global, rows: Rows) -> Cells
        ensures { result ≡ map Full rows }
    {
        Cells {
            alloc,
            form: Form::Even(rows),
        }
    }

    /// The cells of a form.
    pub fn from_form(alloc: Global, form: Form) -> Cells
        ensures { result ≡ cells_in form }
    {
        Cells { alloc, form }
    }

    /// No cells, with the allocator of these.
    pub fn another(&self) -> Cells
        ensures { result ≡ [] }
    {
        Cells::new(self.alloc)
    }

    /// The cells one by one.
    pub fn into_list(self) -> Result<List<Cell>, Memory>
        ensures { IfOk result (λ cells. cells ≡ self) }
    {
        let Cells { alloc, form } = self;
        list_of(alloc, form)
    }

    /// How the cells are kept, without a copy.
    pub fn into_form(self) -> Form
        ensures { cells_in result ≡ self }
    {
        let Cells { alloc: _, form } = self;
        form
    }

    /// How many cells there are.
    pub fn len(&self) -> usize
        ensures { result ≡ length self.now }
    {
        count_in(&self.form)
    }

    /// Adds a cell at the end.
    pub fn push(&mut self, cell: Cell) -> Result<(), Memory>
        ensures ok { OnOk result (self.new ≡ self.old ++ cell ∷ []) }
    {
        push_form(self.alloc, &mut self.form, cell)
    }

    /// Adds a cell with these values, which takes no list of its own.
    pub fn push_values(&mut self, values: &[Datum]) -> Result<(), Memory>
        ensures { OnOk result (self.new ≡ self.old ++ Full values.now ∷ []) }
    {
        push_values_form(self.alloc, &mut self.form, values)
    }

    /// Adds a cell with this number alone.
    pub fn push_number(&mut self, number: i64) -> Result<(), Memory>
        ensures { OnOk result (self.new ≡ self.old ++ Full (Int number ∷ []) ∷ []) }
    {
        push_number_form(self.alloc, &mut self.form, number)
    }

    /// Adds a row of values as a cell.
    pub fn push_row(&mut self, from: &Rows, k: usize) -> Result<(), Memory>
        requires { k < length from.now }
        ensures { OnOk result (self.new ≡ self.old ++ Full (slice_index_or from.now k []) ∷ []) }
    {
        push_row_form(self.alloc, &mut self.form, from, k)
    }

    /// Adds a row of values and behind it those of another as a cell.
    pub fn push_both(&mut self, left: &Rows, i: usize, right: &Rows, j: usize) -> Result<(), Memory>
        requires left { i < length left.now }
        requires right { j < length right.now }
        ensures { OnOk result (self.new ≡ self.old ++ Full (slice_index_or left.now i [] ++ slice_index_or right.now j []) ∷ []) }
    {
        push_both_form(self.alloc, &mut self.form, left, i, right, j)
    }

    /// The cell at a place.
    pub fn cell(&self, k: usize) -> Result<Cell, Memory>
        requires { k < length self.now }
        ensures { IfOk result (λ cell. cell ≡ slice_index_or self.now k (Full [])) }
    {
        cell_in(&self.form, k)
    }

    /// The doubt of the cell at a place, or its first faulty value.
    pub fn fault(&self, k: usize) -> Option<FaultKind>
        requires { k < length self.now }
        ensures { result ≡ fault_of_cell (slice_index_or self.now k (Full [])) }
    {
        fault_at(&self.form, k)
    }

    /// The values in a place of all cells, where they are kept as numbers: so no cell is in doubt, and none is null there.
    pub fn numbers(&self, place: usize) -> Option<&[i64]>
        ensures { IfSome result (λ numbers. map (value_in place) self.now ≡ map Int numbers.now) }
    {
        numbers_in(&self.form, place)
    }

    /// An equal value.
    pub fn copy(&self) -> Result<Cells, Memory>
        ensures { IfOk result (λ copy. copy ≡ self.now) }
    {
        Ok(Cells {
            alloc: self.alloc,
            form: copy_form(&self.form)?,
        })
    }

    /// How the cells are kept.
    pub fn form(&self) -> &Form
        ensures { cells_in result.now ≡ self.now }
    {
        &self.form
    }
}

impl Copies for Cells {
    fn copy(&self) -> Result<Cells, Memory> {
        self.copy()
    }
}
