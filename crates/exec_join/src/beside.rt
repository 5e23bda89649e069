//! Two cells side by side.
ghost use Rattle.std.specs.Prelude.{◌≡◌, ◌++◌, IfOk, OnOk};
ghost use Rattle.cell_values.specs.declared.datum.Cell.TheVariants.{Full};
ghost use Rattle.logical_plan.specs.Joins.{cell_beside};

use cell_values::{Cell, Datum, List, Memory};

fn full_beside(values: List<Datum>, right: Cell) -> Result<Cell, Memory>
    ensures { IfOk result (λ cell. cell ≡ cell_beside (Full values) right) }
{
    match right {
        Cell::Doubt(kind) => Ok(Cell::Doubt(kind)),
        Cell::Full(more) => {
            let mut values = values;
            values.append(more)?;
            Ok(Cell::Full(values))
        }
    }
}

/// Two cells side by side: the doubt of the left one, else that of the right one, else the values
/// of both.
pub(crate) fn cell_beside(left: Cell, right: Cell) -> Result<Cell, Memory>
    ensures { IfOk result (λ cell. cell ≡ cell_beside left right) }
{
    match left {
        Cell::Doubt(kind) => Ok(Cell::Doubt(kind)),
        Cell::Full(values) => full_beside(values, right),
    }
}

fn push_copies(values: &mut List<Datum>, more: &[Datum]) -> Result<(), Memory>
    ensures { OnOk result (values.new ≡ values.old ++ more.now) }
{
    for value in more {
        values.push(value.copy()?)?;
    }
    Ok(())
}

/// Copies of the values of both.
fn copies_of_both(left: &List<Datum>, right: &List<Datum>) -> Result<List<Datum>, Memory>
    ensures { IfOk result (λ values. values ≡ left.now ++ right.now) }
{
    let room = left.len().saturating_add(right.len());
    let mut values = List::with_capacity(left.allocator(), room)?;
    push_copies(&mut values, left.as_slice())?;
    push_copies(&mut values, right.as_slice())?;
    Ok(values)
}

fn copies_beside_full(values: &List<Datum>, right: &Cell) -> Result<Cell, Memory>
    ensures { IfOk result (λ cell. cell ≡ cell_beside (Full values.now) right.now) }
{
    match right {
        Cell::Doubt(kind) => Ok(Cell::Doubt(*kind)),
        Cell::Full(more) => Ok(Cell::Full(copies_of_both(values, more)?)),
    }
}

/// What `cell_beside` makes of copies of the two cells.
pub(crate) fn copies_beside(left: &Cell, right: &Cell) -> Result<Cell, Memory>
    ensures { IfOk result (λ cell. cell ≡ cell_beside left.now right.now) }
{
    match left {
        Cell::Doubt(kind) => Ok(Cell::Doubt(*kind)),
        Cell::Full(values) => copies_beside_full(values, right),
    }
}
