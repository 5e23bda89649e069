//! The aggregates of the window around each cell.
ghost use Rattle.std.specs.Prelude.{◌≡◌, ◌<◌, ◌≤◌, ◌^◌, ◌∷◌, ◌++◌, [], List as Items, Some, length, OnOk, IfOk};
ghost use Rattle.array_geom.specs.Inner.Ranges.{AreLow};
ghost use Rattle.array_rows.specs.Boxes.{within};
ghost use Rattle.array_rows.specs.Cellwise.{cell_wise};
ghost use Rattle.array_rows.specs.Rows.{Coordinate, IsRising};
ghost use Rattle.logical_plan.specs.declared.parts.Reach.{Reach as Reached};
ghost use Rattle.logical_plan.specs.Groups.{window, window_cell, window_rows};
ghost use Rattle.window_overlap.specs.Cores.{window_within};
ghost use Rattle.window_overlap.specs.Reaches.{AreShort, CanAggregate, HaveLowPlaces};

use crate::chunks::corners::window_of;
use crate::chunks::runs::runs_within;
use crate::chunks::states::values_of;
use array_rows::is_in_box;
use cell_values::{Bounds, Cell, List, Memory, Row, copy_coord};
use logical_plan::{Aggregate, Reach};

/// What a cell becomes whose window is this box: the aggregates of the rows there. A doubt stays one.
pub(crate) fn window_cell(
    rows: &List<Row>,
    area: &Bounds,
    cell: &Cell,
    aggs: &[Aggregate],
) -> Result<Cell, Memory>
    requires few { length rows.now < 2 ^ 63 }
    requires numbers { length area.now.lo.items ≤ 6 }
    requires rising { IsRising rows.now }
    requires typed { CanAggregate aggs.now rows.now }
    ensures { (reach : Items Reached) (c : Coordinate) → area.now ≡ window reach c
        → IfOk result (λ made. Some made ≡ window_cell reach aggs.now rows.now c cell.now) }
{
    match cell {
        Cell::Full(_) => {
            let runs = runs_within(rows, area)?;
            let values = values_of(rows, runs.as_slice(), aggs)?;
            Ok(Cell::Full(values))
        }
        Cell::Doubt(kind) => Ok(Cell::Doubt(*kind)),
    }
}

fn window_row(
    rows: &List<Row>,
    row: &Row,
    reach: &[Reach],
    aggs: &[Aggregate],
) -> Result<Row, Memory>
    requires few { length rows.now < 2 ^ 63 }
    requires rising { IsRising rows.now }
    requires low { AreLow row.now.at.items }
    requires short { AreShort reach.now }
    requires typed { CanAggregate aggs.now rows.now }
    ensures at { IfOk result (λ made. made.at ≡ row.now.at) }
    ensures cell { IfOk result (λ made. Some made.cell ≡ window_cell reach.now aggs.now rows.now row.now.at.items row.now.cell) }
{
    let area = window_of(&row.at, reach);
    Ok(Row {
        at: copy_coord(&row.at),
        cell: window_cell(rows, &area, &row.cell, aggs)?,
    })
}

/// Adds what a row becomes, if the box has it.
#[tactic(auto, using(crate::proofs::PieceLaws::no_window))]
fn push_window(
    made: &mut List<Row>,
    rows: &List<Row>,
    row: &Row,
    area: &Bounds,
    reach: &[Reach],
    aggs: &[Aggregate],
) -> Result<(), Memory>
    requires few { length rows.now < 2 ^ 63 }
    requires rising { IsRising rows.now }
    requires low { AreLow row.now.at.items }
    requires short { AreShort reach.now }
    requires typed { CanAggregate aggs.now rows.now }
    ensures { OnOk result (made.new ≡ made.old ++ cell_wise (window_within area.now reach.now aggs.now rows.now) (row.now ∷ [])) }
{
    if is_in_box(area, &row.at) {
        made.push(window_row(rows, row, reach, aggs)?)?;
    }
    Ok(())
}

/// The aggregates of the window around each cell of a box.
pub(crate) fn windows_inside(
    rows: &List<Row>,
    area: &Bounds,
    reach: &[Reach],
    aggs: &[Aggregate],
) -> Result<List<Row>, Memory>
    requires few { length rows.now < 2 ^ 63 }
    requires rising { IsRising rows.now }
    requires low { HaveLowPlaces rows.now }
    requires short { AreShort reach.now }
    requires typed { CanAggregate aggs.now rows.now }
    ensures { IfOk result (λ made. made ≡ within area.now (window_rows reach.now aggs.now rows.now)) }
{
    let mut made = List::with_capacity(rows.allocator(), rows.len())?;
    for row in rows.as_slice() {
        push_window(&mut made, rows, row, area, reach, aggs)?;
    }
    Ok(made)
}
