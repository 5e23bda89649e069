//! Cells of another schema.
ghost use Rattle.std.specs.Prelude.{◌≡◌, ◌<◌, [], Some, length, slice_index_or, slice_set, IfOk};
ghost use Rattle.std.specs.List.{AllByRecursion};
ghost use Rattle.cell_values.specs.declared.datum.Datum.TheVariants.{Null};
ghost use Rattle.logical_plan.specs.CellOps.{fit_cell, fit_rows, fit_value, fit_values};
ghost use Rattle.chunk_cells.specs.Fitted.{HasValues};

use cell_values::{Attribute, Cell, Datum, FaultKind, List, Memory, Row};
use std::collections::VecDeque;

/// Puts a fault in the place of a null where the attribute is to have none.
fn fit_at(values: &mut List<Datum>, index: usize, attribute: &Attribute)
    requires { index < length values.old }
    ensures { values.new ≡ slice_set values.old index (fit_value attribute.now (slice_index_or values.old index Null)) }
{
    if values.as_slice()[index].is_null() && !attribute.nullable {
        values.set(index, Datum::Bad(FaultKind::NullInNotNull));
    }
}

fn fit_values(attributes: &[Attribute], values: List<Datum>) -> List<Datum>
    requires { length values ≡ length attributes.now }
    ensures { result ≡ fit_values attributes.now values }
{
    let mut values = values;
    for index in 0..attributes.len() {
        fit_at(&mut values, index, &attributes[index]);
    }
    values
}

fn fit_cell(attributes: &[Attribute], cell: Cell) -> Cell
    requires { HasValues attributes.now cell }
    ensures { fit_cell attributes.now [] cell ≡ Some result }
{
    match cell {
        Cell::Full(values) => Cell::Full(fit_values(attributes, values)),
        Cell::Doubt(kind) => Cell::Doubt(kind),
    }
}

/// The rows with a fault in the place of each null that is not to be there.
pub fn fit_rows(attributes: &[Attribute], rows: List<Row>) -> Result<List<Row>, Memory>
    requires { AllByRecursion (λ row. HasValues attributes.now row.cell) rows }
    ensures { IfOk result (λ fitted. fitted ≡ fit_rows attributes.now rows) }
{
    let mut fitted = rows.another();
    let mut rows = VecDeque::from_vec(rows.into_vec());
    while let Some(row) = rows.pop_front() {
        fitted.push(Row {
            at: row.at,
            cell: fit_cell(attributes, row.cell),
        })?;
    }
    Ok(fitted)
}
