//! The values and the faults of groups.
ghost use Rattle.std.specs.Prelude.{◌≡◌, ◌≤◌, ◌++◌, ◌∷◌, [], length, IfOk, OnOk};
ghost use Rattle.cell_values.specs.declared.datum.Datum.TheVariants.{Null};
ghost use Rattle.logical_plan.specs.BoxOps.{numbers_at};
ghost use Rattle.logical_plan.specs.Groups.{fault_for};
ghost use Rattle.logical_plan.specs.declared.parts.AggFunction.TheVariants.{Count};
ghost use Rattle.order_exec.specs.Inner.Ranked.{HoldsFaults, HoldsValues, TakesFault, TakesValue};

use crate::keys::value_in;
use array_rows::fault_of_value;
use cell_values::{Cell, Coord, Datum, FaultKind, List, Memory, Row, number_at};
use std::alloc::Global;
use std::collections::BTreeMap;

/// The numbers of a coordinate in these dimensions.
pub(crate) fn key_at(dims: &[u32], at: &Coord) -> Coord
    requires { length dims.now ≤ 6 }
    ensures { result.items ≡ numbers_at dims.now at.now.items }
{
    let mut key = Coord::new();
    for place in dims {
        key.push(number_at(at, *place as usize));
    }
    key
}

/// A cell's doubt, or the fault of its attribute.
fn fault_in(attribute: u32, cell: &Cell) -> Option<FaultKind>
    ensures { result ≡ fault_for Count attribute cell.now }
{
    match cell {
        Cell::Doubt(kind) => Some(*kind),
        Cell::Full(_) => fault_of_value(value_in(cell, attribute, &Datum::Null)),
    }
}

fn push_copy(values: &mut List<Datum>, value: &Datum) -> Result<(), Memory>
    ensures { OnOk result (values.new ≡ values.old ++ value.now ∷ []) }
{
    values.push(value.copy()?)?;
    Ok(())
}

fn list_of_one(alloc: Global, value: &Datum) -> Result<List<Datum>, Memory>
    ensures { IfOk result (λ values. values ≡ value.now ∷ []) }
{
    let mut values = List::new(alloc);
    push_copy(&mut values, value)?;
    Ok(values)
}

/// Puts the value of a row, if it is not null, behind those of its group.
fn take_value(
    groups: &mut BTreeMap<Coord, List<Datum>>,
    alloc: Global,
    attribute: u32,
    dims: &[u32],
    row: &Row,
) -> Result<(), Memory>
    requires { length dims.now ≤ 6 }
    ensures { OnOk result (TakesValue attribute dims.now row.now groups.old groups.new) }
{
    let null = Datum::Null;
    let value = value_in(&row.cell, attribute, &null);
    if value.is_null() {
        return Ok(());
    }
    let key = key_at(dims, &row.at);
    match groups.get_mut(&key) {
        Some(values) => {
            push_copy(values, value)?;
            Ok(())
        }
        None => {
            let values = list_of_one(alloc, value)?;
            groups.insert(key, values)?;
            Ok(())
        }
    }
}

/// The values of each group's rows, in their order.
pub(crate) fn values_of_groups(
    alloc: Global,
    attribute: u32,
    dims: &[u32],
    rows: &[Row],
) -> Result<BTreeMap<Coord, List<Datum>>, Memory>
    requires { length dims.now ≤ 6 }
    ensures { IfOk result (HoldsValues attribute dims.now rows.now) }
{
    let mut groups = BTreeMap::new(alloc);
    for row in rows {
        take_value(&mut groups, alloc, attribute, dims, row)?;
    }
    Ok(groups)
}

/// Keeps the fault of a row, if its group has none.
fn take_fault(
    groups: &mut BTreeMap<Coord, FaultKind>,
    attribute: u32,
    dims: &[u32],
    row: &Row,
) -> Result<(), Memory>
    requires { length dims.now ≤ 6 }
    ensures { OnOk result (TakesFault attribute dims.now row.now groups.old groups.new) }
{
    if let Some(kind) = fault_in(attribute, &row.cell) {
        let key = key_at(dims, &row.at);
        if groups.contains_key(&key) {
            return Ok(());
        }
        groups.insert(key, kind)?;
    }
    Ok(())
}

/// The first fault of each group's rows.
pub(crate) fn faults_of_groups(
    alloc: Global,
    attribute: u32,
    dims: &[u32],
    rows: &[Row],
) -> Result<BTreeMap<Coord, FaultKind>, Memory>
    requires { length dims.now ≤ 6 }
    ensures { IfOk result (HoldsFaults attribute dims.now rows.now) }
{
    let mut groups = BTreeMap::new(alloc);
    for row in rows {
        take_fault(&mut groups, attribute, dims, row)?;
    }
    Ok(groups)
}
