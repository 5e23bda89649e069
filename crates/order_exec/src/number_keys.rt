//! Keys of cells that are numbers, in their order.
ghost use Rattle.std.specs.Prelude.{◌≡◌, map, IfOk, IfSome, OnOk};
ghost use Rattle.std.specs.List.{AllByRecursion};
ghost use Rattle.cell_values.specs.declared.datum.Datum.TheVariants.{Int};
ghost use Rattle.area_cells.specs.Found.{IsFound, found_cell};
ghost use Rattle.logical_plan.specs.Groups.{attribute_of};
ghost use Rattle.logical_plan.specs.Ordered.{sorted_by};
ghost use Rattle.order_exec.specs.Inner.Keyed.{AreKeyed, key_first};

use area_cells::Found;
use array_geom::Grid;
use array_rows::Form;
use cell_values::{List, Memory};
use rayon::prelude::*;
use std::alloc::Global;
use std::thread::Threads;

/// From so many cells on several threads sort them: a thread costs some 20 microseconds, a cell some 100 nanoseconds.
pub(crate) const CELLS_FOR_THREADS: usize = 20_000;

/// The key of a cell, and where the cell stands among all cells in row-major order.
#[derive(Clone, Copy)]
pub(crate) struct Keyed {
    pub key: i64,
    pub index: usize,
}

/// The value of an attribute of a cell, where it is a number.
fn number_of(found: &Found<'_>, key: u32, grid: &Grid) -> Option<i64>
    requires { IsFound grid.now found.now }
    ensures { IfSome result (λ number. attribute_of key (found_cell found.now) ≡ Int number) }
{
    let _ = grid;
    match found.form {
        Form::Even(rows) => rows.number(key as usize, found.number),
        Form::Mixed(_) => None,
    }
}

/// The keys of cells, if all of them are numbers.
pub(crate) fn keyed_cells(
    alloc: Global,
    found: &[Found<'_>],
    key: u32,
    grid: &Grid,
) -> Result<Option<List<Keyed>>, Memory>
    requires { AllByRecursion (IsFound grid.now) found.now }
    ensures { IfOk result (λ made. IfSome made (AreKeyed key (map found_cell found.now))) }
{
    let mut keyed = List::with_capacity(alloc, found.len())?;
    for index in 0..found.len() {
        let one = found[index];
        match number_of(&one, key, grid) {
            Some(number) => keyed.push(Keyed { key: number, index })?,
            None => return Ok(None),
        }
    }
    Ok(Some(keyed))
}

/// The keys in their order, as one thread sorts them.
fn sorted_here(keyed: List<Keyed>) -> Result<List<Keyed>, Memory>
    ensures { IfOk result (λ sorted. sorted ≡ sorted_by key_first keyed) }
{
    let mut keyed = keyed.into_vec();
    keyed.sort_by(|a, b| a.key.cmp(&b.key))?;
    Ok(List::from_vec(keyed))
}

/// Puts the keys in their order by several threads.
fn sort_by_threads(
    rt: &(impl Threads + Sync),
    alloc: Global,
    keyed: &mut [Keyed],
) -> Result<(), Memory>
    ensures { OnOk result (keyed.new ≡ sorted_by key_first keyed.old) }
{
    par_sort_by(rt, alloc, keyed, |a, b| a.key.cmp(&b.key))?;
    Ok(())
}

/// The cells in the order of their keys; those with the same keys stay as they stand.
pub(crate) fn in_number_order(
    rt: &(impl Threads + Sync),
    keyed: List<Keyed>,
) -> Result<List<Keyed>, Memory>
    ensures { IfOk result (λ sorted. sorted ≡ sorted_by key_first keyed) }
{
    if keyed.len() < CELLS_FOR_THREADS {
        sorted_here(keyed)
    } else {
        let alloc = keyed.allocator();
        let mut keyed = keyed.into_vec();
        sort_by_threads(rt, alloc, keyed.as_mut_slice())?;
        Ok(List::from_vec(keyed))
    }
}
