//! Cells that are sorted and numbered.
ghost use Rattle.std.specs.Prelude.{◌≡◌, ◌<◌, ◌^◌, ◌∷◌, [], pos, length, IfOk, OnOk};
ghost use Rattle.logical_plan.specs.Groups.{bad_kind, cells_of, first_some};
ghost use Rattle.logical_plan.specs.Ordered.{comes_first, keys_of, numbered, sorted_by, unsortable, unsortable_at};
ghost use Rattle.array_rows.specs.Rows.{placed};

use crate::keys::{compare_cells, value_in};
use crate::number_keys::CELLS_FOR_THREADS;
use array_rows::fault_of_value;
use cell_values::{Broken, Cell, Datum, FaultKind, List, Memory, Row, coord_of, copy_coord};
use rayon::prelude::*;
use std::alloc::Global;
use std::thread::Threads;

fn key_fault(keys: &[u32], cell: &Cell) -> Option<FaultKind>
    ensures { result ≡ first_some bad_kind (keys_of keys.now cell.now) }
{
    match keys {
        [] => None,
        [key, keys @ ..] => match fault_of_value(value_in(cell, *key, &Datum::Null)) {
            Some(kind) => Some(kind),
            None => key_fault(keys, cell),
        },
    }
}

/// Why a cell has no place among sorted ones: its doubt, or its first faulty key.
fn unsortable(keys: &[u32], cell: &Cell) -> Option<FaultKind>
    ensures { result ≡ unsortable keys.now cell.now }
{
    match cell {
        Cell::Full(_) => key_fault(keys, cell),
        Cell::Doubt(kind) => Some(*kind),
    }
}

/// The first row that has no place.
pub(crate) fn first_unsortable(keys: &[u32], rows: &[Row]) -> Option<Broken>
    ensures { result ≡ first_some (unsortable_at keys.now) rows.now }
{
    for row in rows {
        if let Some(kind) = unsortable(keys, &row.cell) {
            return Some(Broken {
                at: copy_coord(&row.at),
                kind,
            });
        }
    }
    None
}

/// The cells of rows, which are moved.
pub(crate) fn into_cells(rows: List<Row>) -> Result<List<Cell>, Memory>
    ensures { IfOk result (λ cells. cells ≡ cells_of rows) }
{
    let mut cells = List::with_capacity(rows.allocator(), rows.len())?;
    for row in rows.into_vec() {
        cells.push(row.cell)?;
    }
    Ok(cells)
}

/// The cells in the order of their keys, as one thread sorts them.
fn sorted_here(keys: &[u32], cells: List<Cell>) -> Result<List<Cell>, Memory>
    ensures { IfOk result (λ sorted. sorted ≡ sorted_by (comes_first keys.now) cells) }
{
    let mut cells = cells.into_vec();
    cells.sort_by(|a, b| compare_cells(keys, a, b))?;
    Ok(List::from_vec(cells))
}

/// Puts cells in the order of their keys by several threads.
fn sort_by_threads(
    rt: &(impl Threads + Sync),
    alloc: Global,
    keys: &[u32],
    cells: &mut [Cell],
) -> Result<(), Memory>
    ensures { OnOk result (cells.new ≡ sorted_by (comes_first keys.now) cells.old) }
{
    par_sort_by(rt, alloc, cells, |a, b| compare_cells(keys, a, b))?;
    Ok(())
}

/// The cells in the order of their keys; those with the same keys stay as they stand.
pub(crate) fn in_key_order(
    rt: &(impl Threads + Sync),
    keys: &[u32],
    cells: List<Cell>,
) -> Result<List<Cell>, Memory>
    ensures { IfOk result (λ sorted. sorted ≡ sorted_by (comes_first keys.now) cells) }
{
    if cells.len() < CELLS_FOR_THREADS {
        sorted_here(keys, cells)
    } else {
        let alloc = cells.allocator();
        let mut cells = cells.into_vec();
        sort_by_threads(rt, alloc, keys, cells.as_mut_slice())?;
        Ok(List::from_vec(cells))
    }
}

/// A cell at a number.
fn row_at(number: u64, cell: Cell) -> Row
    requires { number < 2 ^ 62 }
    ensures { result ≡ placed (pos number ∷ []) cell }
{
    Row {
        at: coord_of(&[number as i64]),
        cell,
    }
}

/// The cells at the numbers from 0 on.
pub(crate) fn numbered(cells: List<Cell>) -> Result<List<Row>, Memory>
    requires { length cells < 2 ^ 62 }
    ensures { IfOk result (λ rows. rows ≡ numbered 0 cells) }
{
    let mut rows = List::with_capacity(cells.allocator(), cells.len())?;
    let mut next = 0u64;
    for cell in cells.into_vec() {
        rows.push(row_at(next, cell))?;
        next += 1;
    }
    Ok(rows)
}
