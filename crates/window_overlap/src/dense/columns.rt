//! The numbers of an attribute at the places of a grid.
ghost use Rattle.std.specs.Prelude.{◌≡◌, ◌<◌, ℤ, Some, IfOk, IfSome};
ghost use Rattle.std.specs.List.{AllByRecursion};
ghost use Rattle.array_rows.specs.Rows.{IsRising};
ghost use Rattle.array_geom.specs.Inner.Ranges.{IsGrid};
ghost use Rattle.area_cells.specs.Found.{IsFound, found_cell, found_rows};
ghost use Rattle.window_overlap.specs.Inner.Dense.{AreNumbers, HasNumber};

use area_cells::Found;
use array_geom::Grid;
use array_rows::Form;
use cell_values::{List, Memory};
use std::alloc::Global;

/// At which places of a grid there is a cell, and its number.
#[derive(Drop)]
pub(crate) struct Dense {
    pub(crate) present: List<bool>,
    pub(crate) numbers: List<i64>,
}

/// The number of a cell, if it has one.
fn number_of(found: &Found<'_>, attribute: u32, grid: &Grid) -> Option<i64>
    requires { IsFound grid.now found.now }
    ensures { IfSome result (HasNumber attribute (Some (found_cell found.now))) }
{
    let _ = grid;
    match found.form {
        Form::Even(rows) => rows.number(attribute as usize, found.number),
        Form::Mixed(_) => None,
    }
}

/// The numbers of an attribute at the places of a grid, if each cell has one.
pub(crate) fn dense_of(
    alloc: Global,
    found: &[Found<'_>],
    attribute: u32,
    grid: &Grid,
) -> Result<Option<Dense>, Memory>
    requires grid { IsGrid grid.now }
    requires found { AllByRecursion (IsFound grid.now) found.now }
    requires rising { IsRising (found_rows grid.now found.now) }
    ensures { IfOk result (λ made. IfSome made (λ dense. AreNumbers grid.now (found_rows grid.now found.now) attribute dense.present dense.numbers)) }
{
    let count = grid.volume() as usize;
    let mut present = List::from_vec(Vec::from_elem(alloc, false, count)?);
    let mut numbers = List::from_vec(Vec::from_elem(alloc, 0, count)?);
    for k in 0..found.len() {
        let one = found[k];
        match number_of(&one, attribute, grid) {
            Some(number) => {
                present.set(one.position as usize, true);
                numbers.set(one.position as usize, number);
            }
            None => return Ok(None),
        }
    }
    Ok(Some(Dense { present, numbers }))
}
