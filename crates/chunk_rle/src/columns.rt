//! Reading the values of a payload into columns, in which no run is kept.
ghost use Rattle.std.specs.Prelude.{◌≡◌, ◌+◌, ◌≤◌, ◌++◌, [], ◌∷◌, map, replicate, Ok, IfOk, OnOk, IfSome};
ghost use Rattle.file_items.specs.Items.{IsRead, repeat};
ghost use Rattle.array_geom.specs.Attribute.{Attribute as OneAttribute};
ghost use Rattle.array_geom.specs.Kind.TheVariants.{Int64};
ghost use Rattle.array_geom.specs.Datum.TheVariants.{Int};
ghost use Rattle.chunk_rle.specs.Longest.{values_of};
ghost use Rattle.chunk_rle.specs.Table.{value_fields, value_at, run_at, with_values, no_values, column_at, columns_at, is_new};
ghost use Rattle.chunk_rle.specs.Inner.Valued.{AreValuesOf, Gives, as_run, as_value, valued, valued_column, valued_columns};

use crate::expanding::push_copies;
use crate::numbers::is_same_number;
use crate::reading::{is_run_length, runs_from};
use crate::runs::{NumberRun, Run};
use array_geom::{Attribute, Kind, List, Memory};
use array_rows::Column as Values;
use file_items::{Stop, u64_at};
use std::alloc::Global;

/// A number behind its tag, if it is there.
#[tactic(auto, unfolding(crate::specs::Table::value_fields))]
fn number_behind(bytes: &[u8]) -> Option<(i64, &[u8])>
    ensures { IfSome result (λ x. Gives (value_fields (1 ∷ bytes.now)) (Int x.0) x.1.now) }
{
    match u64_at(bytes) {
        Ok((number, rest)) => Some((number.cast_signed(), rest)),
        Err(_) => None,
    }
}

/// A value that is a number, if one is there.
fn number(bytes: &[u8]) -> Option<(i64, &[u8])>
    ensures { IfSome result (λ x. Gives (value_at bytes.now) (Int x.0) x.1.now) }
{
    match bytes {
        [1, rest @ ..] => number_behind(rest),
        _ => None,
    }
}

/// Whether the number before is another one, or there is none.
fn is_other(before: Option<i64>, number: i64) -> bool
    ensures { result ≡ is_new (as_value before) (Int number) }
{
    match before {
        None => true,
        Some(before) => !is_same_number(before, number),
    }
}

/// The next run with so many after it, if it is there and is one of a number.
#[tactic(auto, unfolding(crate::specs::Table::run_at, crate::specs::Table::is_allowed))]
fn number_run(
    n: u64,
    total: u64,
    before: Option<i64>,
    after: u64,
    bytes: &[u8],
) -> Option<(NumberRun, &[u8])>
    requires { total ≤ n }
    ensures read { IfSome result (λ x. (attribute : OneAttribute) → attribute.kind ≡ Int64
        → Gives (run_at attribute n (record { total = total; last = as_value before }) after bytes.now) (as_run x.0) x.1.now) }
    ensures range { IfSome result (λ x. total + x.0.length ≤ n) }
{
    let (length, rest) = match u64_at(bytes) {
        Ok(read) => read,
        Err(_) => return None,
    };
    if !is_run_length(n, total, after == 0, length) {
        return None;
    }
    match number(rest) {
        Some((number, last)) => {
            if is_other(before, number) {
                Some((NumberRun { length, number }, last))
            } else {
                None
            }
        }
        None => None,
    }
}

/// Adds a number so many times.
fn push_run(numbers: &mut List<i64>, run: NumberRun) -> Result<(), Memory>
    ensures { OnOk result (map Int numbers.new ≡ map Int numbers.old ++ replicate run.length (Int run.number)) }
{
    for _ in 0..run.length {
        numbers.push(run.number)?;
    }
    Ok(())
}

/// The values of so many runs, if all of them are there and are runs of numbers.
fn numbers_from(
    alloc: Global,
    n: u64,
    count: u64,
    bytes: &[u8],
) -> Result<Option<(Values, &[u8])>, Memory>
    ensures { IfOk result (λ found. IfSome found (λ x. (attribute : OneAttribute) → attribute.kind ≡ Int64
        → AreValuesOf attribute n count bytes.now x.0 x.1.now)) }
{
    let mut numbers = List::new(alloc);
    let mut total: u64 = 0;
    let mut before = None;
    let mut rest = bytes;
    for index in 0..count {
        match number_run(n, total, before, count - index - 1, rest) {
            Some((run, after)) => {
                push_run(&mut numbers, run)?;
                total += run.length;
                before = Some(run.number);
                rest = after;
            }
            None => return Ok(None),
        }
    }
    Ok(Some((Values::from_numbers(numbers), rest)))
}

/// Adds the value of a run so many times: the value itself where that is once.
fn push_value_run(values: &mut Values, run: Run) -> Result<(), Memory>
    ensures { OnOk result (values.new ≡ values.old ++ replicate run.length run.value) }
{
    if run.length == 1 {
        return values.push(run.value);
    }
    push_copies(values, &run.value, run.length)
}

/// The values of runs.
fn values_of_runs(alloc: Global, runs: List<Run>) -> Result<Values, Memory>
    ensures { IfOk result (λ values. values ≡ values_of runs) }
{
    let mut values = Values::new(alloc);
    for run in runs.into_vec() {
        push_value_run(&mut values, run)?;
    }
    Ok(values)
}

/// The values of so many runs.
fn values_by_runs<'a>(
    alloc: Global,
    attribute: &Attribute,
    n: u64,
    count: u64,
    bytes: &'a [u8],
) -> Result<(Values, &'a [u8]), Stop>
    ensures { IsRead (λ x. (x.0, x.1.now)) result (valued (repeat (run_at attribute.now n) with_values count no_values bytes.now)) }
{
    match runs_from(alloc, attribute, n, count, bytes) {
        Ok((runs, rest)) => Ok((values_of_runs(alloc, runs)?, rest)),
        Err(stop) => Err(stop),
    }
}

/// The values of so many runs. Numbers alone are read without a run for each.
fn values_from<'a>(
    alloc: Global,
    attribute: &Attribute,
    n: u64,
    count: u64,
    bytes: &'a [u8],
) -> Result<(Values, &'a [u8]), Stop>
    ensures { IsRead (λ x. (x.0, x.1.now)) result (valued (repeat (run_at attribute.now n) with_values count no_values bytes.now)) }
{
    match attribute.kind {
        Kind::Int64 => match numbers_from(alloc, n, count, bytes) {
            Ok(Some(found)) => Ok(found),
            Ok(None) => values_by_runs(alloc, attribute, n, count, bytes),
            Err(Memory) => Err(Stop::Memory),
        },
        _ => values_by_runs(alloc, attribute, n, count, bytes),
    }
}

/// The values of an attribute.
#[tactic(auto, unfolding(crate::specs::Table::column_at))]
fn column_values<'a>(
    alloc: Global,
    attribute: &Attribute,
    n: u64,
    bytes: &'a [u8],
) -> Result<(Values, &'a [u8]), Stop>
    ensures { IsRead (λ x. (x.0, x.1.now)) result (valued_column (column_at attribute.now n bytes.now)) }
{
    let (count, rest) = match u64_at(bytes) {
        Ok(read) => read,
        Err(stop) => return Err(stop),
    };
    if !(0 < count && count <= n) {
        return Err(Stop::Left(bytes.len()));
    }
    values_from(alloc, attribute, n, count, rest)
}

/// Adds a column.
fn push_column(columns: &mut Vec<Values>, values: Values) -> Result<(), Memory>
    ensures { OnOk result (columns.new.items ≡ columns.old.items ++ values ∷ []) }
{
    columns.push(values)?;
    Ok(())
}

/// The values of all attributes.
pub(crate) fn columns_values<'a>(
    alloc: Global,
    attributes: &[Attribute],
    n: u64,
    bytes: &'a [u8],
) -> Result<(Vec<Values>, &'a [u8]), Stop>
    ensures { IsRead (λ x. (x.0.items, x.1.now)) result (valued_columns (columns_at attributes.now n bytes.now)) }
{
    let mut columns = Vec::new(alloc);
    let mut rest = bytes;
    for attribute in attributes {
        match column_values(alloc, attribute, n, rest) {
            Ok((values, after)) => {
                push_column(&mut columns, values)?;
                rest = after;
            }
            Err(stop) => return Err(stop),
        }
    }
    Ok((columns, rest))
}
