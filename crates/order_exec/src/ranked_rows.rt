//! The ranks of rows.
ghost use Rattle.std.specs.Prelude.{◌≡◌, ◌+◌, ◌<◌, ◌≤◌, ◌^◌, Some, List as Items, length, pos, IfOk};
ghost use Rattle.std.specs.BTreeMap as tree;
ghost use Rattle.cell_values.specs.declared.datum.Datum.TheVariants.{Int, Null};
ghost use Rattle.cell_values.specs.declared.datum.Row.{Row as Placed};
ghost use Rattle.group_rows.specs.Taken.{by_coordinate};
ghost use Rattle.logical_plan.specs.Ordered.{below, rank_cell, rank_rows};
ghost use Rattle.order_exec.specs.Inner.Ranked.{AreOrdered, DescribesGroups, rank_value, values_or_none};

use crate::keys::value_in;
use crate::rank_groups::{faults_of_groups, key_at, values_of_groups};
use crate::sorted_groups::sorted_groups;
use crate::value_counts::count_below;
use cell_values::{Cell, Coord, Datum, FaultKind, List, Memory, Row, copy_coord};
use std::alloc::Global;
use std::collections::BTreeMap;

fn fault_at(faults: &BTreeMap<Coord, FaultKind>, group: &Coord) -> Option<FaultKind>
    ensures { result ≡ tree.get by_coordinate faults.now group.now }
{
    match faults.get(group) {
        Some(kind) => Some(*kind),
        None => None,
    }
}

/// How many values of a group come before this one.
fn count_in(values: &BTreeMap<Coord, List<Datum>>, group: &Coord, value: &Datum) -> usize
    requires { AreOrdered values.now }
    ensures { result ≡ below value.now (values_or_none (tree.get by_coordinate values.now group.now)) }
{
    match values.get(group) {
        Some(values) => count_below(values.as_slice(), value),
        None => 0,
    }
}

fn rank_after(before: usize) -> Datum
    requires { before < 2 ^ 62 }
    ensures { result ≡ Int (pos (1 + before)) }
{
    Datum::Int((1 + before) as i64)
}

/// The rank of a value in a group. More than can be numbered are as good as no memory.
fn rank_in(
    values: &BTreeMap<Coord, List<Datum>>,
    faults: &BTreeMap<Coord, FaultKind>,
    group: &Coord,
    value: &Datum,
) -> Result<Datum, Memory>
    requires { AreOrdered values.now }
    ensures { IfOk result (λ made. made ≡ rank_value (tree.get by_coordinate faults.now group.now) value.now (values_or_none (tree.get by_coordinate values.now group.now))) }
{
    if let Some(kind) = fault_at(faults, group) {
        return Ok(Datum::Bad(kind));
    }
    if value.is_null() {
        return Ok(Datum::Null);
    }
    let before = count_in(values, group, value);
    if before >= 1 << 62 {
        return Err(Memory);
    }
    Ok(rank_after(before))
}

/// The value of the attribute and its rank. A doubt stays one.
fn ranked_cell(
    alloc: Global,
    values: &BTreeMap<Coord, List<Datum>>,
    faults: &BTreeMap<Coord, FaultKind>,
    attribute: u32,
    dims: &[u32],
    row: &Row,
) -> Result<Cell, Memory>
    requires names { length dims.now ≤ 6 }
    requires order { AreOrdered values.now }
    ensures { IfOk result (λ made. (rows : Items Placed) → DescribesGroups attribute dims.now rows values.now faults.now → rank_cell attribute dims.now rows row.now.at.items row.now.cell ≡ Some made) }
{
    match &row.cell {
        Cell::Doubt(kind) => Ok(Cell::Doubt(*kind)),
        Cell::Full(_) => {
            let null = Datum::Null;
            let value = value_in(&row.cell, attribute, &null);
            let key = key_at(dims, &row.at);
            let mut made = List::with_capacity(alloc, 2)?;
            made.push(value.copy()?)?;
            made.push(rank_in(values, faults, &key, value)?)?;
            Ok(Cell::Full(made))
        }
    }
}

/// Each row with the value of the attribute and its rank among the rows that agree with it in these dimensions, in the row's place.
pub(crate) fn ranked_rows(
    attribute: u32,
    dims: &[u32],
    rows: List<Row>,
) -> Result<List<Row>, Memory>
    requires { length dims.now ≤ 6 }
    ensures { IfOk result (λ made. made ≡ rank_rows attribute dims.now rows) }
{
    let alloc = rows.allocator();
    let faults = faults_of_groups(alloc, attribute, dims, rows.as_slice())?;
    let groups = values_of_groups(alloc, attribute, dims, rows.as_slice())?;
    let values = sorted_groups(alloc, groups)?;
    let count = rows.len();
    let mut made = rows;
    for k in 0..count {
        let row = &made[k];
        let at = copy_coord(&row.at);
        let cell = ranked_cell(alloc, &values, &faults, attribute, dims, row)?;
        made.set(k, Row { at, cell });
    }
    Ok(made)
}
