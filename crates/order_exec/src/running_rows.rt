//! Cells that are taken into the states of their lines one after the other, each of which becomes the values of these states.
ghost use Rattle.std.specs.Prelude.{◌≡◌, ◌+◌, ◌^◌, ◌<◌, ◌≤◌, ◌++◌, ◌∷◌, [], Some, List as Items, length, map, slice_index_or, IsTrue, IfOk, OnOk};
ghost use Rattle.std.specs.BTreeMap as tree;
ghost use Rattle.std.specs.List.{AllByRecursion};
ghost use Rattle.cell_values.specs.declared.datum.Cell.TheVariants.{Full};
ghost use Rattle.cell_values.specs.declared.datum.Row.{Row as Placed};
ghost use Rattle.cell_values.specs.declared.schema.Attribute.{Attribute};
ghost use Rattle.cell_values.specs.Cells.{IsCellOf};
ghost use Rattle.logical_plan.specs.declared.parts.Aggregate.{Aggregate as Wanted};
ghost use Rattle.logical_plan.specs.Groups.{aggregates_of};
ghost use Rattle.logical_plan.specs.Typing.{are_aggregates_of};
ghost use Rattle.group_rows.specs.Grouped.{IsGroupOf};
ghost use Rattle.group_rows.specs.Sets.{sets_by};
ghost use Rattle.group_rows.specs.Taken.{KeepsGroups, by_coordinate, cells_kept};
ghost use Rattle.order_exec.specs.Inner.Running.{IsNext, TakesNext, running, running_cell};
ghost use Rattle.order_exec.specs.Lines.{CanAggregate, LinesRise, line_start};

use crate::line_starts::{Along, line_at};
use crate::state_values::values_of;
use agg_states::AggState;
use cell_values::{Cell, Coord, Datum, List, Memory, Row, copy_coord};
use group_rows::take_rows;
use std::alloc::Global;
use std::collections::BTreeMap;

/// The values of the states of a line.
fn values_at(
    lines: &BTreeMap<Coord, List<AggState>>,
    alloc: Global,
    line: &Coord,
) -> Result<List<Datum>, Memory>
    ensures { IfOk result (λ values. (gs : Items Wanted) (attributes : Items Attribute) (rows : Items Placed) → IsGroupOf gs (Some rows) (tree.get by_coordinate lines.now line.now)
        → IsTrue (are_aggregates_of attributes gs) → AllByRecursion (λ row. IsCellOf attributes row.cell) rows → Full values ≡ aggregates_of gs rows) }
{
    match lines.get(line) {
        Some(states) => values_of(states),
        None => Ok(List::new(alloc)),
    }
}

/// Takes a cell into the states of its line.
fn take_cell(
    lines: &mut BTreeMap<Coord, List<AggState>>,
    alloc: Global,
    along: &Along<'_>,
    line: &Coord,
    rows: &[Row],
    k: usize,
) -> Result<(), Memory>
    requires place { k < length rows.now }
    requires room { cells_kept lines.old.entries + 1 < 2 ^ 63 }
    ensures states { OnOk result ((earlier : Items Placed) (row : Placed) → row ≡ slice_index_or rows.now k row → line.now.items ≡ line_start along.now.place along.now.low row.at.items
        → KeepsGroups along.now.aggs.now (sets_by (line_start along.now.place along.now.low) earlier) lines.old → IsNext (line_start along.now.place along.now.low) earlier row
        → KeepsGroups along.now.aggs.now (sets_by (line_start along.now.place along.now.low) (earlier ++ row ∷ [])) lines.new) }
    ensures cells { OnOk result (cells_kept lines.new.entries ≤ cells_kept lines.old.entries + 1) }
{
    take_rows(lines, alloc, along.aggs, line, &rows[k..k + 1])
}

/// What a cell becomes whose line has these states. A doubt stays one.
fn cell_on_line(
    lines: &BTreeMap<Coord, List<AggState>>,
    alloc: Global,
    line: &Coord,
    cell: &Cell,
) -> Result<Cell, Memory>
    ensures { IfOk result (λ made. (gs : Items Wanted) (attributes : Items Attribute) (rows : Items Placed) → IsGroupOf gs (Some rows) (tree.get by_coordinate lines.now line.now)
        → IsTrue (are_aggregates_of attributes gs) → AllByRecursion (λ row. IsCellOf attributes row.cell) rows → made ≡ running_cell gs rows cell.now) }
{
    match cell {
        Cell::Full(_) => Ok(Cell::Full(values_at(lines, alloc, line)?)),
        Cell::Doubt(kind) => Ok(Cell::Doubt(*kind)),
    }
}

/// Takes a cell into the states of its line, and gives what it becomes.
fn next_row(
    lines: &mut BTreeMap<Coord, List<AggState>>,
    alloc: Global,
    along: &Along<'_>,
    rows: &[Row],
    k: usize,
) -> Result<Row, Memory>
    requires place { k < length rows.now }
    requires room { cells_kept lines.old.entries + 1 < 2 ^ 63 }
    ensures next { IfOk result (λ made. (earlier : Items Placed) (row : Placed) → row ≡ slice_index_or rows.now k row
        → TakesNext (line_start along.now.place along.now.low) along.now.aggs.now earlier row lines.old made lines.new) }
    ensures at { IfOk result (λ made. (row : Placed) → row ≡ slice_index_or rows.now k row → made.at ≡ row.at) }
    ensures cells { OnOk result (cells_kept lines.new.entries ≤ cells_kept lines.old.entries + 1) }
{
    let row = &rows[k];
    let line = line_at(along, &row.at);
    take_cell(lines, alloc, along, &line, rows, k)?;
    let cell = cell_on_line(lines, alloc, &line, &row.cell)?;
    Ok(Row {
        at: copy_coord(&row.at),
        cell,
    })
}

/// What each of these cells becomes, which are taken into the states of their lines one after the other.
pub(crate) fn running(
    lines: &mut BTreeMap<Coord, List<AggState>>,
    alloc: Global,
    along: &Along<'_>,
    rows: &[Row],
) -> Result<List<Row>, Memory>
    requires room { cells_kept lines.old.entries + length rows.now < 2 ^ 63 }
    ensures rows { IfOk result (λ made. (earlier : Items Placed) → KeepsGroups along.now.aggs.now (sets_by (line_start along.now.place along.now.low) earlier) lines.old
        → LinesRise (line_start along.now.place along.now.low) (earlier ++ rows.now) → CanAggregate along.now.aggs.now (earlier ++ rows.now)
        → made ≡ running (line_start along.now.place along.now.low) along.now.aggs.now earlier rows.now) }
    ensures states { OnOk result ((earlier : Items Placed) → KeepsGroups along.now.aggs.now (sets_by (line_start along.now.place along.now.low) earlier) lines.old
        → LinesRise (line_start along.now.place along.now.low) (earlier ++ rows.now)
        → KeepsGroups along.now.aggs.now (sets_by (line_start along.now.place along.now.low) (earlier ++ rows.now)) lines.new) }
    ensures places { IfOk result (λ made. map (λ row. row.at) made ≡ map (λ row. row.at) rows.now) }
    ensures cells { OnOk result (cells_kept lines.new.entries ≤ cells_kept lines.old.entries + length rows.now) }
{
    let mut made = List::with_capacity(alloc, rows.len())?;
    for k in 0..rows.len() {
        made.push(next_row(lines, alloc, along, rows, k)?)?;
    }
    Ok(made)
}
