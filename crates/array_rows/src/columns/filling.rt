//! Columns to which a value each is added.
ghost use Rattle.std.specs.Prelude.{◌≡◌, ◌+◌, ◌<◌, [], ◌∷◌, ◌++◌, length, slice_index_or, slice_set, OnOk, IfOk, IfSome};
ghost use Rattle.cell_values.specs.declared.datum.Datum.TheVariants.{Null, Int};
ghost use Rattle.array_rows.specs.RowsIn.{row_at, pushed, AreLong};
ghost use Rattle.array_rows.specs.Seen.{seen};

use crate::columns::{Column, Small};
use cell_values::{Datum, List, Memory};
use std::alloc::Global;

/// Adds a value to a column.
fn push_at(columns: &mut Vec<Column>, at: usize, value: Datum) -> Result<(), Memory>
    requires { at < length columns.old.items }
    ensures { OnOk result (columns.new.items ≡ slice_set columns.old.items at (slice_index_or columns.old.items at [] ++ value ∷ [])) }
{
    columns[at].push(value)
}

/// Adds a number to the only column.
pub(crate) fn push_first(columns: &mut Vec<Column>, number: i64) -> Result<(), Memory>
    requires { length columns.old.items ≡ 1 }
    ensures { OnOk result (columns.new.items ≡ pushed columns.old.items (Int number ∷ [])) }
{
    push_at(columns, 0, Datum::Int(number))
}

/// Adds a value to each column.
pub(crate) fn push_each(columns: &mut Vec<Column>, values: &[Datum]) -> Result<(), Memory>
    requires { length columns.old.items ≡ length values.now }
    ensures { OnOk result (columns.new.items ≡ pushed columns.old.items values.now) }
{
    for k in 0..values.len() {
        push_at(columns, k, values[k].copy()?)?;
    }
    Ok(())
}

/// Adds a place of other columns.
pub(crate) fn push_place(columns: &mut Vec<Column>, from: &[Column], k: usize) -> Result<(), Memory>
    requires { length columns.old.items ≡ length from.now }
    ensures { OnOk result (columns.new.items ≡ pushed columns.old.items (row_at k from.now)) }
{
    for i in 0..from.len() {
        push_at(columns, i, from[i].value(k)?)?;
    }
    Ok(())
}

/// Adds a place of some columns, and behind it one of others.
pub(crate) fn push_places(
    columns: &mut Vec<Column>,
    left: &[Column],
    i: usize,
    right: &[Column],
    j: usize,
) -> Result<(), Memory>
    requires { length columns.old.items ≡ length left.now + length right.now }
    ensures { OnOk result (columns.new.items ≡ pushed columns.old.items (row_at i left.now ++ row_at j right.now)) }
{
    for k in 0..left.len() {
        push_at(columns, k, left[k].value(i)?)?;
    }
    for k in 0..right.len() {
        push_at(columns, left.len() + k, right[k].value(j)?)?;
    }
    Ok(())
}

/// The values at a place.
pub(crate) fn values_at(alloc: Global, columns: &[Column], k: usize) -> Result<List<Datum>, Memory>
    ensures { IfOk result (λ values. values ≡ row_at k columns.now) }
{
    let mut values = List::with_capacity(alloc, columns.len())?;
    for column in columns {
        values.push(column.value(k)?)?;
    }
    Ok(values)
}

pub(crate) fn copy_columns(alloc: Global, columns: &[Column]) -> Result<Vec<Column>, Memory>
    ensures { IfOk result (λ copy. copy.items ≡ columns.now) }
{
    let mut copy = Vec::with_capacity(alloc, columns.len())?;
    for column in columns {
        copy.push(column.copy()?)?;
    }
    Ok(copy)
}

/// Columns without values.
pub(crate) fn empty_columns(alloc: Global, width: usize) -> Result<Vec<Column>, Memory>
    ensures width { IfOk result (λ made. length made.items ≡ width) }
    ensures empty { IfOk result (λ made. AreLong 0 made.items) }
{
    let mut made = Vec::with_capacity(alloc, width)?;
    for k in 0..width {
        made.push(Column::new(alloc))?;
    }
    Ok(made)
}

/// The number in a place of each column, where it is one.
pub(crate) fn number_in(columns: &[Column], place: usize, k: usize) -> Option<i64>
    ensures { IfSome result (λ number. slice_index_or (row_at k columns.now) place Null ≡ Int number) }
{
    match columns.get(place) {
        Some(column) => column.number(k),
        None => None,
    }
}

pub(crate) fn small_in(columns: &[Column], place: usize, k: usize) -> Small
    ensures { result ≡ seen (slice_index_or (row_at k columns.now) place Null) }
{
    match columns.get(place) {
        Some(column) => column.small(k),
        None => Small::Other,
    }
}
