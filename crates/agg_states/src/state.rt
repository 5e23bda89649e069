//! The state of an aggregate.
ghost use Rattle.std.specs.Prelude.{◌≡◌, ◌+◌, ◌^◌, ◌<◌, List as Items, [], None, IsTrue, IfOk, OnOk, OnErr};
ghost use Rattle.std.specs.List.{AllByRecursion};
ghost use Rattle.cell_values.specs.declared.datum.Datum.TheVariants.{Int};
ghost use Rattle.cell_values.specs.declared.datum.Row.{Row};
ghost use Rattle.cell_values.specs.declared.schema.Attribute.{Attribute};
ghost use Rattle.cell_values.specs.Cells.{IsCellOf};
ghost use Rattle.array_rows.specs.Rows.{placed, cell_at, put_row, put_all};
ghost use Rattle.logical_plan.specs.declared.parts.Aggregate.{Aggregate};
ghost use Rattle.logical_plan.specs.Groups.{cells_of, aggregate_of, attribute_of, fault_for};
ghost use Rattle.logical_plan.specs.Typing.{is_aggregate_of};
ghost use Rattle.agg_states.specs.Stands.{StandsFor, AreApart};

use crate::parts::{
    better_of, copy_best, copy_fault, count_of, earlier_of, fault_in, keep_best, keep_number,
    number_of, outcome, placed_fault, value_in,
};
use cell_values::{Broken, Cell, Coord, Copies, Datum, Memory};
use logical_plan::AggFunction;
use std::marker::Model;

/// What is known of a set of cells, so that an aggregate of them can be told.
#[derive(Drop)]
pub struct AggState {
    function: AggFunction,
    /// The fault that comes first in row-major order.
    fault: Option<Broken>,
    cells: u64,
    /// How many values are not null.
    values: u64,
    total: i128,
    /// The least or the greatest value; none for the other functions.
    best: Option<Datum>,
}

impl Model for AggState {
    ghost use Rattle.agg_states.specs.Inner.Summary.{Summary, IsInRange};

    ghost Value = { Summary };

    ghost view = { λ state. record {
      function = state.function;
      fault = state.fault;
      cells = state.cells;
      values = state.values;
      total = state.total;
      best = state.best;
    } };

    ghost invariant = { λ state. IsInRange state.cells state.values state.total };
}

impl AggState {
    /// The state of no cells.
    pub fn empty(function: AggFunction) -> AggState
        ensures stands { (g : Aggregate) → g.function ≡ function → StandsFor g [] result }
        ensures cells { result.cells ≡ 0 }
    {
        AggState {
            function,
            fault: None,
            cells: 0,
            values: 0,
            total: 0,
            best: None,
        }
    }

    /// Adds a cell at a coordinate at which none was taken, with the value of an attribute, from 0. `CountAll` looks at no value.
    pub fn take(&mut self, at: &Coord, cell: &Cell, attribute: u32) -> Result<(), Memory>
        requires room { self.old.cells + 1 < 2 ^ 63 }
        ensures stands { OnOk result ((g : Aggregate) (rows : Items Row) → StandsFor g rows self.old → g.attribute ≡ attribute
            → cell_at rows at.now.items ≡ None → StandsFor g (put_row (placed at.now.items cell.now) rows) self.new) }
        ensures cells { OnOk result (self.new.cells ≡ self.old.cells + 1) }
        ensures err { OnErr result (self.new ≡ self.old) }
    {
        let null = Datum::Null;
        let value = value_in(cell, attribute, &null);
        keep_best(self.function, value, &mut self.best)?;
        let fault = placed_fault(at, fault_in(self.function, cell, attribute));
        self.fault = earlier_of(fault, self.fault.take());
        self.cells += 1;
        self.values += count_of(value);
        self.total += number_of(value) as i128;
        Ok(())
    }

    /// Adds a cell at a coordinate at which none was taken, whose value of the attribute is this number. Where the cell stands
    /// need not be known, since it has no fault for the aggregate.
    pub fn take_number(&mut self, number: i64)
        requires room { self.old.cells + 1 < 2 ^ 63 }
        ensures stands { (g : Aggregate) (rows : Items Row) (new : Row) → StandsFor g rows self.old → attribute_of g.attribute new.cell ≡ Int number
            → fault_for g.function g.attribute new.cell ≡ None → cell_at rows new.at.items ≡ None → StandsFor g (put_row new rows) self.new }
        ensures cells { self.new.cells ≡ self.old.cells + 1 }
    {
        keep_number(self.function, number, &mut self.best);
        self.cells += 1;
        self.values += 1;
        self.total += number as i128;
    }

    /// The state of the cells of both, which have no coordinate in common.
    pub fn merge(self, other: AggState) -> AggState
        requires room { self.cells + other.cells < 2 ^ 63 }
        ensures stands { (g : Aggregate) (a b : Items Row) → StandsFor g a self → StandsFor g b other → AreApart a b → StandsFor g (put_all a b) result }
        ensures cells { result.cells ≡ self.cells + other.cells }
    {
        AggState {
            function: self.function,
            fault: earlier_of(self.fault, other.fault),
            cells: self.cells + other.cells,
            values: self.values + other.values,
            total: self.total + other.total,
            best: better_of(self.function, self.best, other.best),
        }
    }

    /// The aggregate of the cells in row-major order: the kind of the first fault, else the total, the number, the least or the
    /// greatest of the values that are not null.
    pub fn finish(self) -> Datum
        ensures { (g : Aggregate) (attributes : Items Attribute) (rows : Items Row) → StandsFor g rows self
            → IsTrue (is_aggregate_of attributes g) → AllByRecursion (λ row. IsCellOf attributes row.cell) rows → result ≡ aggregate_of g (cells_of rows) }
    {
        let AggState {
            function,
            fault,
            cells,
            values,
            total,
            best,
        } = self;
        match fault {
            Some(broken) => Datum::Bad(broken.kind),
            None => outcome(function, cells, values, total, best),
        }
    }

    /// The same as `finish`, of a state that may take further cells.
    pub fn value(&self) -> Result<Datum, Memory>
        ensures { IfOk result (λ value. (g : Aggregate) (attributes : Items Attribute) (rows : Items Row) → StandsFor g rows self.now
            → IsTrue (is_aggregate_of attributes g) → AllByRecursion (λ row. IsCellOf attributes row.cell) rows → value ≡ aggregate_of g (cells_of rows)) }
    {
        match &self.fault {
            Some(broken) => Ok(Datum::Bad(broken.kind)),
            None => {
                let best = copy_best(&self.best)?;
                Ok(outcome(self.function, self.cells, self.values, self.total, best))
            }
        }
    }

    /// An equal state.
    pub fn copy(&self) -> Result<AggState, Memory>
        ensures { IfOk result (λ copy. copy ≡ self.now) }
    {
        Ok(AggState {
            function: self.function,
            fault: copy_fault(&self.fault),
            cells: self.cells,
            values: self.values,
            total: self.total,
            best: copy_best(&self.best)?,
        })
    }
}

impl Copies for AggState {
    fn copy(&self) -> Result<AggState, Memory> {
        self.copy()
    }
}
