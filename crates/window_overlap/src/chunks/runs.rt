//! The rows of a box, as runs of rows that stand together.
ghost use Rattle.std.specs.Prelude.{◌≡◌, ℕ, ◌+◌, ◌-◌, ◌++◌, [], ◌≤◌, ◌<◌, List as Items, length, take, drop, IsTrue, OnOk, IfOk};
ghost use Rattle.std.specs.List.{prefix_len};
ghost use Rattle.cell_values.specs.declared.datum.Row.{Row as Placed};
ghost use Rattle.array_rows.specs.Boxes.{is_inside, within};
ghost use Rattle.array_rows.specs.Rows.{IsRising};
ghost use Rattle.window_overlap.specs.Inner.Runs.{rows_of, AreRuns};
ghost use Rattle.window_overlap.specs.Inner.Skips.{begins_outside};

use crate::chunks::skips::{count_inside, count_outside};
use cell_values::{Bounds, List, Memory, Row};

/// Rows from one place on, from 0, up to another.
#[derive(Drop)]
pub struct Run {
    pub start: usize,
    pub end: usize,
}

/// Adds a run, if it has rows.
fn push_run(runs: &mut List<Run>, start: usize, end: usize) -> Result<(), Memory>
    ensures rows { OnOk result ((rows : Items Placed) → rows_of rows runs.new ≡ rows_of rows runs.old ++ take (end - start) (drop start rows)) }
    ensures runs { OnOk result ((count : ℕ) → end ≤ count → AreRuns count runs.old → AreRuns count runs.new) }
{
    if start < end {
        runs.push(Run { start, end })?;
    }
    Ok(())
}

/// Where the rows of a box end that stand together from a place on.
fn end_of_run(area: &Bounds, rows: &[Row], start: usize) -> usize
    requires { start ≤ length rows.now }
    ensures from { start ≤ result }
    ensures upto { result ≤ length rows.now }
    ensures inside { result ≡ start + prefix_len (λ row. is_inside area.now row.at.items) (drop start rows.now) }
{
    start + count_inside(area, &rows[start..])
}

/// Where rows that may lie in a box go on, behind those at a place that do not.
fn next_start(area: &Bounds, rows: &[Row], end: usize) -> usize
    requires few { length area.now.lo.items ≤ 6 }
    requires rising { IsRising rows.now }
    requires within { end ≤ length rows.now }
    requires outside { IsTrue (begins_outside area.now (drop end rows.now)) }
    ensures from { end ≤ result }
    ensures upto { result ≤ length rows.now }
    ensures some { end < length rows.now → end < result }
    ensures outside { within area.now (take (result - end) (drop end rows.now)) ≡ [] }
{
    end + count_outside(area, &rows[end..])
}

/// The runs of the rows that lie in a box.
pub(crate) fn runs_within(rows: &List<Row>, area: &Bounds) -> Result<List<Run>, Memory>
    requires few { length area.now.lo.items ≤ 6 }
    requires rising { IsRising rows.now }
    ensures runs { IfOk result (AreRuns (length rows.now)) }
    ensures rows { IfOk result (λ runs. rows_of rows.now runs ≡ within area.now rows.now) }
{
    let mut runs = rows.another();
    let rows = rows.as_slice();
    let mut start = 0;
    while start < rows.len() {
        let end = end_of_run(area, rows, start);
        push_run(&mut runs, start, end)?;
        start = next_start(area, rows, end);
    }
    Ok(runs)
}
