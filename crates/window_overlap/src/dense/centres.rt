//! The windows around the cells of a box.
ghost use Rattle.std.specs.Prelude.{◌≡◌, ◌<◌, ◌≤◌, ◌∷◌, ◌++◌, ◌^◌, [], ℕ, true, length, map, take, slice_index_or, List as Items, IsTrue, OnOk, IfOk, IfSome};
ghost use Rattle.std.specs.List.{AllByRecursion};
ghost use Rattle.cell_values.specs.declared.datum.Row.{Row as Placed};
ghost use Rattle.array_rows.specs.Boxes.{is_inside, within};
ghost use Rattle.array_rows.specs.Cellwise.{cell_wise};
ghost use Rattle.array_rows.specs.Rows.{Coordinate, IsRising};
ghost use Rattle.array_geom.specs.Geometry.{position_in};
ghost use Rattle.array_geom.specs.Inner.Ranges.{IsGrid, is_in_grid};
ghost use Rattle.area_cells.specs.Found.{IsFound, found_cell, found_row, found_rows};
ghost use Rattle.area_cells.specs.Inner.Filled.{IsFilled};
ghost use Rattle.logical_plan.specs.Groups.{aggregate_of, cells_of, window};
ghost use Rattle.window_overlap.specs.Cores.{window_within};
ghost use Rattle.window_overlap.specs.Inner.Dense.{AreColumns, AreNumbers, IsFull, IsSet, corner_of};
ghost use Rattle.window_overlap.specs.Reaches.{CanAggregate};

use crate::chunks::window_of;
use crate::dense::columns::{Dense, dense_of};
use crate::dense::numbers::state_of;
use area_cells::Found;
use array_geom::{Chunk, Grid};
use array_rows::{Cells, Form, is_in_box};
use cell_values::{Bounds, ChunkAt, Coord, Datum, List, Memory, copy_numbers};
use logical_plan::{Aggregate, Reach};
use std::alloc::Global;

/// The numbers of the attribute of each aggregate, if each cell has one.
pub(crate) fn columns_of(
    alloc: Global,
    found: &[Found<'_>],
    aggs: &[Aggregate],
    grid: &Grid,
) -> Result<Option<List<Dense>>, Memory>
    requires grid { IsGrid grid.now }
    requires found { AllByRecursion (IsFound grid.now) found.now }
    requires rising { IsRising (found_rows grid.now found.now) }
    ensures { IfOk result (λ made. IfSome made (AreColumns grid.now (found_rows grid.now found.now) aggs.now)) }
{
    let mut columns = List::new(alloc);
    for k in 0..aggs.len() {
        match dense_of(alloc, found, aggs[k].attribute, grid)? {
            Some(dense) => columns.push(dense)?,
            None => return Ok(None),
        }
    }
    Ok(Some(columns))
}

/// Whether a cell is surely there.
fn is_full(found: &Found<'_>) -> bool
    ensures { IsTrue result → IsFull (found_cell found.now) }
{
    match found.form {
        Form::Even(_) => true,
        Form::Mixed(_) => false,
    }
}

/// Whether each cell is there.
pub(crate) fn all_full(found: &[Found<'_>]) -> bool
    ensures { IsTrue result → AllByRecursion (λ f. IsFull (found_cell f)) found.now }
{
    for k in 0..found.len() {
        if !is_full(&found[k]) {
            return false;
        }
    }
    true
}

/// An aggregate of the window around a coordinate of a box, whose low corner has this place.
fn value_at(
    at: &Coord,
    base: u64,
    found: &[Found<'_>],
    area: &Bounds,
    reach: &[Reach],
    agg: &Aggregate,
    column: &Dense,
    offsets: &[u64],
    grid: &Grid,
    shape: &Grid,
    origin: &Grid,
) -> Datum
    requires set { IsSet reach.now grid.now shape.now origin.now offsets.now area.now }
    requires inside { is_inside area.now at.now.items ≡ true }
    requires base { base ≡ position_in grid.now.low.items grid.now.lengths.items (corner_of reach.now at.now.items) }
    requires numbers { AreNumbers grid.now (found_rows grid.now found.now) agg.now.attribute column.now.present column.now.numbers }
    requires rising { IsRising (found_rows grid.now found.now) }
    requires typed { CanAggregate (agg.now ∷ []) (found_rows grid.now found.now) }
    ensures { result ≡ aggregate_of agg.now (cells_of (within (window reach.now at.now.items) (found_rows grid.now found.now))) }
{
    let _ = at;
    let _ = found;
    let _ = area;
    let _ = reach;
    let _ = origin;
    let state = state_of(
        agg.function,
        column.present.as_slice(),
        column.numbers.as_slice(),
        base,
        offsets,
        grid,
        shape,
    );
    state.finish()
}

/// The aggregates of the window around a coordinate of a box.
fn values_at(
    alloc: Global,
    at: &Coord,
    found: &[Found<'_>],
    area: &Bounds,
    reach: &[Reach],
    aggs: &[Aggregate],
    columns: &[Dense],
    offsets: &[u64],
    grid: &Grid,
    shape: &Grid,
    origin: &Grid,
) -> Result<List<Datum>, Memory>
    requires set { IsSet reach.now grid.now shape.now origin.now offsets.now area.now }
    requires inside { is_inside area.now at.now.items ≡ true }
    requires columns { AreColumns grid.now (found_rows grid.now found.now) aggs.now columns.now }
    requires rising { IsRising (found_rows grid.now found.now) }
    requires typed { CanAggregate aggs.now (found_rows grid.now found.now) }
    ensures { IfOk result (λ values. values ≡ map (λ g. aggregate_of g (cells_of (within (window reach.now at.now.items) (found_rows grid.now found.now)))) aggs.now) }
{
    let corner = window_of(at, reach).lo;
    let base = grid.position(&corner);
    let mut values = List::with_capacity(alloc, aggs.len())?;
    for k in 0..aggs.len() {
        values.push(value_at(
            at,
            base,
            found,
            area,
            reach,
            &aggs[k],
            &columns[k],
            offsets,
            grid,
            shape,
            origin,
        ))?;
    }
    Ok(values)
}

/// Adds the window around a cell, if the box has it.
fn push_centre(
    made: &mut Chunk,
    target: &Grid,
    one: &Found<'_>,
    found: &[Found<'_>],
    area: &Bounds,
    reach: &[Reach],
    aggs: &[Aggregate],
    columns: &[Dense],
    offsets: &[u64],
    grid: &Grid,
    shape: &Grid,
    origin: &Grid,
) -> Result<(), Memory>
    requires set { IsSet reach.now grid.now shape.now origin.now offsets.now area.now }
    requires target { IsGrid target.now }
    requires held { (c : Coordinate) → is_inside area.now c ≡ true → is_in_grid target.now.low.items target.now.lengths.items c ≡ true }
    requires one { IsFound grid.now one.now }
    requires full { IsFull (found_cell one.now) }
    requires columns { AreColumns grid.now (found_rows grid.now found.now) aggs.now columns.now }
    requires rising { IsRising (found_rows grid.now found.now) }
    requires typed { CanAggregate aggs.now (found_rows grid.now found.now) }
    ensures number { OnOk result (made.new.at ≡ made.old.at) }
    ensures filled { OnOk result ((rows : Items Placed) → IsFilled target.now.low.items target.now.lengths.items rows made.old
        → IsFilled target.now.low.items target.now.lengths.items
        (rows ++ cell_wise (window_within area.now reach.now aggs.now (found_rows grid.now found.now)) (found_row grid.now one.now ∷ [])) made.new) }
{
    let at = grid.place(one.position);
    if is_in_box(area, &at) {
        let values = values_at(
            made.positions.allocator(),
            &at,
            found,
            area,
            reach,
            aggs,
            columns,
            offsets,
            grid,
            shape,
            origin,
        )?;
        made.positions.push(target.position(&at))?;
        made.cells.push_values(values.as_slice())?;
    }
    Ok(())
}

/// The chunk of the windows around the cells of a box.
pub(crate) fn chunk_of_windows(
    number: &ChunkAt,
    target: &Grid,
    found: &List<Found<'_>>,
    area: &Bounds,
    reach: &[Reach],
    aggs: &[Aggregate],
    columns: &[Dense],
    offsets: &[u64],
    grid: &Grid,
    shape: &Grid,
    origin: &Grid,
) -> Result<Chunk, Memory>
    requires set { IsSet reach.now grid.now shape.now origin.now offsets.now area.now }
    requires target { IsGrid target.now }
    requires held { (c : Coordinate) → is_inside area.now c ≡ true → is_in_grid target.now.low.items target.now.lengths.items c ≡ true }
    requires found { AllByRecursion (IsFound grid.now) found.now }
    requires full { AllByRecursion (λ f. IsFull (found_cell f)) found.now }
    requires columns { AreColumns grid.now (found_rows grid.now found.now) aggs.now columns.now }
    requires rising { IsRising (found_rows grid.now found.now) }
    requires typed { CanAggregate aggs.now (found_rows grid.now found.now) }
    ensures number { IfOk result (λ made. made.at ≡ number.now) }
    ensures filled { IfOk result (IsFilled target.now.low.items target.now.lengths.items
        (cell_wise (window_within area.now reach.now aggs.now (found_rows grid.now found.now)) (found_rows grid.now found.now))) }
{
    let mut made = Chunk {
        at: copy_numbers(number),
        positions: found.another(),
        cells: Cells::new(found.allocator()),
    };
    let all = found.as_slice();
    for k in 0..all.len() {
        push_centre(
            &mut made, target, &all[k], all, area, reach, aggs, columns, offsets, grid, shape,
            origin,
        )?;
    }
    Ok(made)
}
