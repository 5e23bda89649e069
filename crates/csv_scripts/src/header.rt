//! The first line: which field is which column.
ghost use Rattle.std.specs.Prelude.{◌≡◌, Some, IfSome, IfOk};
ghost use Rattle.csv.specs.Records.{field_at, fields_of};
ghost use Rattle.csv_scripts.specs.Conversion.{AreColumns};

use crate::fault::CsvFault;
use cell_values::{Attribute, Bytes, List};
use csv::ByteRecord;
use std::alloc::Global;

/// The first field of a record that is this name.
fn index_of(names: &ByteRecord, name: &[u8]) -> Option<usize>
    ensures { IfSome result (λ at. field_at (fields_of names.now) at ≡ Some name.now) }
{
    for at in 0..names.len() {
        if let Some(field) = names.get(at) {
            if field == name {
                return Some(at);
            }
        }
    }
    None
}

/// Whether a record has more than one field of this name.
fn is_repeated(names: &ByteRecord, name: &[u8]) -> bool {
    let mut count = 0usize;
    for at in 0..names.len() {
        if names.get(at) == Some(name) {
            count = count.saturating_add(1);
        }
    }
    count > 1
}

fn has_column(columns: &[Attribute], name: &[u8]) -> bool {
    for column in columns {
        if column.name.as_slice() == name {
            return true;
        }
    }
    false
}

/// Refuses a name of the first line that no column has.
fn check_names(alloc: Global, columns: &[Attribute], names: &ByteRecord) -> Result<(), CsvFault> {
    for at in 0..names.len() {
        if let Some(name) = names.get(at) {
            if !has_column(columns, name) {
                return Err(CsvFault::UnknownColumn(Bytes::from_slice(alloc, name)?));
            }
        }
    }
    Ok(())
}

/// The place of a column among the names of the first line.
fn place_of(alloc: Global, column: &Attribute, names: &ByteRecord) -> Result<usize, CsvFault>
    ensures { IfOk result (λ at. field_at (fields_of names.now) at ≡ Some column.now.name) }
{
    let name = column.name.as_slice();
    if is_repeated(names, name) {
        return Err(CsvFault::RepeatedColumn(Bytes::from_slice(alloc, name)?));
    }
    match index_of(names, name) {
        Some(at) => Ok(at),
        None => Err(CsvFault::NoColumn(Bytes::from_slice(alloc, name)?)),
    }
}

/// The place of each column among the names of the first line, where each of these is a column.
pub(crate) fn places(
    alloc: Global,
    columns: &[Attribute],
    names: &ByteRecord,
) -> Result<List<usize>, CsvFault>
    ensures { IfOk result (λ places. AreColumns (fields_of names.now) columns.now places) }
{
    let mut places = List::new(alloc);
    for at in 0..columns.len() {
        places.push(place_of(alloc, &columns[at], names)?)?;
    }
    check_names(alloc, columns, names)?;
    Ok(places)
}
