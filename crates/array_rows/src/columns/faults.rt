//! The faults of cells and of values.
ghost use Rattle.std.specs.Prelude.{◌≡◌};
ghost use Rattle.array_rows.specs.CellFaults.{fault_of_value, fault_of_values, fault_of_cell};
ghost use Rattle.array_rows.specs.RowsIn.{row_at};

use crate::columns::Column;
use cell_values::{Cell, Datum, FaultKind};

/// The kind of a faulty value.
pub fn fault_of_value(value: &Datum) -> Option<FaultKind>
    ensures { result ≡ fault_of_value value.now }
{
    match value {
        Datum::Bad(kind) => Some(*kind),
        _ => None,
    }
}

fn fault_of_values(values: &[Datum]) -> Option<FaultKind>
    ensures { result ≡ fault_of_values values.now }
{
    match values {
        [] => None,
        [value, values @ ..] => match fault_of_value(value) {
            Some(kind) => Some(kind),
            None => fault_of_values(values),
        },
    }
}

/// The doubt of a cell, or its first faulty value.
pub fn fault_of_cell(cell: &Cell) -> Option<FaultKind>
    ensures { result ≡ fault_of_cell cell.now }
{
    match cell {
        Cell::Full(values) => fault_of_values(values.as_slice()),
        Cell::Doubt(kind) => Some(*kind),
    }
}

/// The first fault among the values at a place.
pub(crate) fn fault_in(columns: &[Column], k: usize) -> Option<FaultKind>
    ensures { result ≡ fault_of_values (row_at k columns.now) }
{
    match columns {
        [] => None,
        [column, columns @ ..] => match column.fault(k) {
            Some(kind) => Some(kind),
            None => fault_in(columns, k),
        },
    }
}
