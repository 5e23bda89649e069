//! The values of a record.
ghost use Rattle.std.specs.Prelude.{◌≡◌, ◌<◌, length, slice_index_or, IfOk, OnOk};
ghost use Rattle.csv.specs.Records.{fields_of};
ghost use Rattle.csv_scripts.specs.Records.{HaveColumnValues, HasColumnValue, field_in};

use crate::fault::{CsvFault, FieldFault};
use crate::fields::{FieldFormat, parse_field};
use crate::plan::LoadPlan;
use cell_values::{Attribute, Bytes, Datum, Kind, List};
use csv::ByteRecord;
use std::alloc::Global;

/// How a script is made.
#[derive(Clone, Copy)]
pub struct Options<'a> {
    /// Whether the script makes the array first.
    pub creates: bool,
    /// Whether texts and truths stand as other programs write them.
    pub is_bare: bool,
    /// What stands for a null, beside nothing at all.
    pub null: &'a [u8],
    /// How many records go into a version of the array at most.
    pub rows: u64,
}

/// The line that a record begins in.
pub(crate) fn line_of(record: &ByteRecord) -> u64 {
    match record.position() {
        Some(position) => position.line(),
        None => 0,
    }
}

fn why_of(options: Options<'_>, column: &Attribute, field: &[u8]) -> FieldFault {
    if field.is_empty() || field == b"null".as_slice() || field == options.null {
        return FieldFault::NullHere;
    }
    match column.kind {
        Kind::Int64 => FieldFault::NoInt,
        Kind::Str => FieldFault::NoText,
        Kind::Bool => FieldFault::NoTruth,
    }
}

fn field_fault(alloc: Global, line: u64, column: &Attribute, why: FieldFault) -> CsvFault {
    match Bytes::from_slice(alloc, column.name.as_slice()) {
        Ok(column) => CsvFault::Field { line, column, why },
        Err(_) => CsvFault::Memory,
    }
}

fn decimals_at(plan: &LoadPlan, at: usize) -> usize
    ensures { result ≡ slice_index_or plan.now.decimals at 0 }
{
    match plan.decimals.as_slice().get(at) {
        Some(decimals) => *decimals,
        None => 0,
    }
}

fn place_at(places: &List<usize>, at: usize) -> usize
    ensures { result ≡ slice_index_or places.now at 0 }
{
    match places.as_slice().get(at) {
        Some(place) => *place,
        None => 0,
    }
}

/// The field of a column.
fn field_of<'r>(row: &'r ByteRecord, places: &List<usize>, at: usize) -> &'r [u8]
    ensures { result.now ≡ field_in (fields_of row.now) places.now at }
{
    match row.get(place_at(places, at)) {
        Some(field) => field,
        None => b"",
    }
}

/// The value of a column.
fn value_at(
    alloc: Global,
    plan: &LoadPlan,
    places: &List<usize>,
    options: Options<'_>,
    row: &ByteRecord,
    at: usize,
) -> Result<Datum, CsvFault>
    requires { at < length plan.now.columns }
    ensures { IfOk result (HasColumnValue plan.now options.entry.is_bare options.entry.null.now (fields_of row.now) places.now at) }
{
    let columns = plan.columns.as_slice();
    let field = field_of(row, places, at);
    let format = FieldFormat {
        is_bare: options.is_bare,
        null: options.null,
        decimals: decimals_at(plan, at),
    };
    match parse_field(alloc, field, &columns[at..at + 1], format)? {
        Some(value) => Ok(value),
        None => {
            let column = &columns[at];
            Err(field_fault(alloc, line_of(row), column, why_of(options, column, field)))
        }
    }
}

/// The values of a record, one for each column.
pub(crate) fn values_of(
    alloc: Global,
    plan: &LoadPlan,
    places: &List<usize>,
    options: Options<'_>,
    row: &ByteRecord,
    values: &mut List<Datum>,
) -> Result<(), CsvFault>
    ensures said { OnOk result (HaveColumnValues
        (HasColumnValue plan.now options.entry.is_bare options.entry.null.now (fields_of row.now) places.now) 0 values.new) }
    ensures all { OnOk result (length values.new ≡ length plan.now.columns) }
{
    values.clear();
    let count = plan.columns.len();
    for at in 0..count {
        let value = value_at(alloc, plan, places, options, row, at)?;
        values.push(value)?;
    }
    Ok(())
}

/// The first dimension out of whose bounds a record lies, by its column.
fn outside(plan: &LoadPlan, values: &List<Datum>) -> Option<usize> {
    let dimensions = plan.schema.dimensions.as_slice();
    let attributes = plan.schema.attributes.len();
    for at in 0..dimensions.len() {
        let place = attributes.saturating_add(at);
        if let Some(Datum::Int(number)) = values.get(place) {
            if *number < dimensions[at].lo || *number > dimensions[at].hi {
                return Some(place);
            }
        }
    }
    None
}

/// Refuses a record that lies outside of the array's bounds.
pub(crate) fn check_bounds(
    alloc: Global,
    plan: &LoadPlan,
    record: &ByteRecord,
    values: &List<Datum>,
) -> Result<(), CsvFault> {
    let Some(at) = outside(plan, values) else {
        return Ok(());
    };
    match plan.columns.get(at) {
        Some(column) => Err(field_fault(alloc, line_of(record), column, FieldFault::OutOfBounds)),
        None => Ok(()),
    }
}
