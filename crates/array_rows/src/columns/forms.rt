//! Cells in columns where each has as many values as the others, and one by one where they do not.
ghost use Rattle.std.specs.Prelude.{◌≡◌, ◌<◌, [], ◌∷◌, ◌++◌, length, map, cond, slice_index_or, OnOk, IfOk, IfSome};
ghost use Rattle.cell_values.specs.declared.datum.Cell.TheVariants.{Full};
ghost use Rattle.cell_values.specs.declared.datum.Datum.TheVariants.{Int};
ghost use Rattle.array_rows.specs.CellFaults.{fault_of_cell};
ghost use Rattle.array_rows.specs.Inner.CellsIn.{cells_in, value_in};

use crate::columns::{Rows, fault_of_cell};
use cell_values::{Cell, Datum, FaultKind, List, Memory};
use std::alloc::Global;

#[derive(Drop)]
pub enum Form {
    /// Cells that are there, each with a value for each column.
    Even(Rows),
    Mixed(List<Cell>),
}

fn general(alloc: Global, rows: &Rows) -> Result<List<Cell>, Memory>
    ensures { IfOk result (λ cells. cells ≡ map Full rows.now) }
{
    let mut cells = List::new(alloc);
    for k in 0..rows.len() {
        cells.push(Cell::Full(rows.row(k)?))?;
    }
    Ok(cells)
}

fn general_more(alloc: Global, rows: &Rows, cell: Cell) -> Result<Form, Memory>
    ensures { IfOk result (λ form. cells_in form ≡ map Full rows.now ++ cell ∷ []) }
{
    let mut cells = general(alloc, rows)?;
    cells.push(cell)?;
    Ok(Form::Mixed(cells))
}

/// Whether the cell was taken as a row.
fn takes(form: &mut Form, cell: &Cell) -> Result<bool, Memory>
    ensures { IfOk result (λ taken. cells_in form.new ≡ cond taken (cells_in form.old ++ cell.now ∷ []) (cells_in form.old)) }
{
    match cell {
        Cell::Full(values) => takes_values(form, values.as_slice()),
        Cell::Doubt(_) => Ok(false),
    }
}

/// Whether the values were taken as a row.
fn takes_values(form: &mut Form, values: &[Datum]) -> Result<bool, Memory>
    ensures { IfOk result (λ taken. cells_in form.new ≡ cond taken (cells_in form.old ++ Full values.now ∷ []) (cells_in form.old)) }
{
    match form {
        Form::Even(rows) => rows.push(values),
        Form::Mixed(_) => Ok(false),
    }
}

/// Whether a number was taken as a row.
fn takes_number(form: &mut Form, number: i64) -> Result<bool, Memory>
    ensures { IfOk result (λ taken. cells_in form.new ≡ cond taken (cells_in form.old ++ Full (Int number ∷ []) ∷ []) (cells_in form.old)) }
{
    match form {
        Form::Even(rows) => rows.push_number(number),
        Form::Mixed(_) => Ok(false),
    }
}

/// Whether a row of others was taken as a row.
fn takes_row(form: &mut Form, from: &Rows, k: usize) -> Result<bool, Memory>
    requires { k < length from.now }
    ensures { IfOk result (λ taken. cells_in form.new ≡ cond taken (cells_in form.old ++ Full (slice_index_or from.now k []) ∷ []) (cells_in form.old)) }
{
    match form {
        Form::Even(rows) => rows.push_row(from, k),
        Form::Mixed(_) => Ok(false),
    }
}

/// Whether two rows of others, one behind the other, were taken as a row.
fn takes_both(
    form: &mut Form,
    left: &Rows,
    i: usize,
    right: &Rows,
    j: usize,
) -> Result<bool, Memory>
    requires left { i < length left.now }
    requires right { j < length right.now }
    ensures { IfOk result (λ taken. cells_in form.new ≡ cond taken (cells_in form.old ++ Full (slice_index_or left.now i [] ++ slice_index_or right.now j []) ∷ []) (cells_in form.old)) }
{
    match form {
        Form::Even(rows) => rows.push_both(left, i, right, j),
        Form::Mixed(_) => Ok(false),
    }
}

/// Adds a cell at the end of cells one by one, which they are from then on.
fn push_mixed(alloc: Global, form: &mut Form, cell: Cell) -> Result<(), Memory>
    ensures { OnOk result (cells_in form.new ≡ cells_in form.old ++ cell ∷ []) }
{
    match form {
        Form::Even(rows) => {
            let more = general_more(alloc, rows, cell)?;
            *form = more;
            Ok(())
        }
        Form::Mixed(cells) => cells.push(cell),
    }
}

pub(crate) fn push_form(alloc: Global, form: &mut Form, cell: Cell) -> Result<(), Memory>
    ensures { OnOk result (cells_in form.new ≡ cells_in form.old ++ cell ∷ []) }
{
    match takes(form, &cell) {
        Ok(false) => push_mixed(alloc, form, cell),
        Ok(true) => {
            drop(cell);
            Ok(())
        }
        Err(Memory) => {
            drop(cell);
            Err(Memory)
        }
    }
}

fn copy_values(alloc: Global, values: &[Datum]) -> Result<List<Datum>, Memory>
    ensures { IfOk result (λ copy. copy ≡ values.now) }
{
    let mut copy = List::with_capacity(alloc, values.len())?;
    for value in values {
        copy.push(value.copy()?)?;
    }
    Ok(copy)
}

pub(crate) fn push_values_form(
    alloc: Global,
    form: &mut Form,
    values: &[Datum],
) -> Result<(), Memory>
    ensures { OnOk result (cells_in form.new ≡ cells_in form.old ++ Full values.now ∷ []) }
{
    if takes_values(form, values)? {
        return Ok(());
    }
    push_mixed(alloc, form, Cell::Full(copy_values(alloc, values)?))
}

fn cell_of_number(alloc: Global, number: i64) -> Result<Cell, Memory>
    ensures { IfOk result (λ cell. cell ≡ Full (Int number ∷ [])) }
{
    let mut values = List::new(alloc);
    values.push(Datum::Int(number))?;
    Ok(Cell::Full(values))
}

pub(crate) fn push_number_form(alloc: Global, form: &mut Form, number: i64) -> Result<(), Memory>
    ensures { OnOk result (cells_in form.new ≡ cells_in form.old ++ Full (Int number ∷ []) ∷ []) }
{
    if takes_number(form, number)? {
        return Ok(());
    }
    push_mixed(alloc, form, cell_of_number(alloc, number)?)
}

pub(crate) fn push_row_form(
    alloc: Global,
    form: &mut Form,
    from: &Rows,
    k: usize,
) -> Result<(), Memory>
    requires { k < length from.now }
    ensures { OnOk result (cells_in form.new ≡ cells_in form.old ++ Full (slice_index_or from.now k []) ∷ []) }
{
    if takes_row(form, from, k)? {
        return Ok(());
    }
    push_mixed(alloc, form, Cell::Full(from.row(k)?))
}

/// The values of two rows, one behind the other, as a cell.
fn cell_of_both(left: &Rows, i: usize, right: &Rows, j: usize) -> Result<Cell, Memory>
    requires left { i < length left.now }
    requires right { j < length right.now }
    ensures { IfOk result (λ cell. cell ≡ Full (slice_index_or left.now i [] ++ slice_index_or right.now j [])) }
{
    let mut values = left.row(i)?;
    values.append(right.row(j)?)?;
    Ok(Cell::Full(values))
}

pub(crate) fn push_both_form(
    alloc: Global,
    form: &mut Form,
    left: &Rows,
    i: usize,
    right: &Rows,
    j: usize,
) -> Result<(), Memory>
    requires left { i < length left.now }
    requires right { j < length right.now }
    ensures { OnOk result (cells_in form.new ≡ cells_in form.old ++ Full (slice_index_or left.now i [] ++ slice_index_or right.now j []) ∷ []) }
{
    if takes_both(form, left, i, right, j)? {
        return Ok(());
    }
    push_mixed(alloc, form, cell_of_both(left, i, right, j)?)
}

pub(crate) fn cell_in(form: &Form, k: usize) -> Result<Cell, Memory>
    requires { k < length (cells_in form.now) }
    ensures { IfOk result (λ cell. cell ≡ slice_index_or (cells_in form.now) k (Full [])) }
{
    match form {
        Form::Even(rows) => Ok(Cell::Full(rows.row(k)?)),
        Form::Mixed(cells) => cells[k].copy(),
    }
}

pub(crate) fn fault_at(form: &Form, k: usize) -> Option<FaultKind>
    requires { k < length (cells_in form.now) }
    ensures { result ≡ fault_of_cell (slice_index_or (cells_in form.now) k (Full [])) }
{
    match form {
        Form::Even(rows) => rows.fault(k),
        Form::Mixed(cells) => fault_of_cell(&cells[k]),
    }
}

pub(crate) fn count_in(form: &Form) -> usize
    ensures { result ≡ length (cells_in form.now) }
{
    match form {
        Form::Even(rows) => rows.len(),
        Form::Mixed(cells) => cells.len(),
    }
}

pub(crate) fn copy_form(form: &Form) -> Result<Form, Memory>
    ensures { IfOk result (λ copy. cells_in copy ≡ cells_in form.now) }
{
    match form {
        Form::Even(rows) => Ok(Form::Even(rows.copy()?)),
        Form::Mixed(cells) => Ok(Form::Mixed(cells.copy()?)),
    }
}

pub(crate) fn numbers_in(form: &Form, place: usize) -> Option<&[i64]>
    ensures { IfSome result (λ numbers. map (value_in place) (cells_in form.now) ≡ map Int numbers.now) }
{
    match form {
        Form::Even(rows) => rows.numbers(place),
        Form::Mixed(_) => None,
    }
}

pub(crate) fn list_of(alloc: Global, form: Form) -> Result<List<Cell>, Memory>
    ensures { IfOk result (λ cells. cells ≡ cells_in form) }
{
    match form {
        Form::Even(rows) => general(alloc, &rows),
        Form::Mixed(cells) => Ok(cells),
    }
}
