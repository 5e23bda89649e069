//! The text of an array as CSV.
ghost use Rattle.std.specs.Prelude.{◌≡◌, [], ◌++◌, map, IfOk, OnOk};
ghost use Rattle.std.specs.List.{flat_map};
ghost use Rattle.csv.specs.Records.{fields_of, partial_of};
ghost use Rattle.result_print.specs.Inner.Writers.{IsReady, written};
ghost use Rattle.result_print.specs.Records.{csv_text, name_fields, name_record, record_text, row_fields, row_record, value_fields};

use crate::spelling::Spelled;
use cell_values::{Bytes, Cell, Memory, Row, Schema};
use csv::{ByteRecord, Writer, WriterBuilder};
use std::alloc::Global;

/// Adds a field for each part. One text after another has its room in `field`.
fn push_fields<T: Spelled>(
    fields: &mut ByteRecord,
    field: &mut Bytes,
    parts: &[T],
) -> Result<(), Memory>
    requires { partial_of fields.old ≡ [] }
    ensures fields { OnOk result (fields_of fields.new ≡ fields_of fields.old ++ map T.bytes parts.now) }
    ensures whole { OnOk result (partial_of fields.new ≡ []) }
{
    for part in parts {
        field.clear();
        part.write(field)?;
        fields.push_field(field.as_slice())?;
    }
    Ok(())
}

/// Adds a field for each value.
fn push_values(fields: &mut ByteRecord, field: &mut Bytes, cell: &Cell) -> Result<(), Memory>
    requires { partial_of fields.old ≡ [] }
    ensures { OnOk result (fields_of fields.new ≡ fields_of fields.old ++ value_fields cell.now) }
{
    match cell {
        Cell::Full(values) => push_fields(fields, field, values.as_slice()),
        Cell::Doubt(_) => Ok(()),
    }
}

fn fill_names(fields: &mut ByteRecord, field: &mut Bytes, schema: &Schema) -> Result<(), Memory>
    ensures { OnOk result (fields_of fields.new ≡ name_fields schema.now) }
{
    fields.clear();
    push_fields(fields, field, schema.dimensions.as_slice())?;
    push_fields(fields, field, schema.attributes.as_slice())
}

fn fill_row(fields: &mut ByteRecord, field: &mut Bytes, row: &Row) -> Result<(), Memory>
    ensures { OnOk result (fields_of fields.new ≡ row_fields row.now) }
{
    fields.clear();
    push_fields(fields, field, row.at.as_slice())?;
    push_values(fields, field, &row.cell)
}

/// What writes records behind a text.
fn writer_behind(text: Bytes) -> Writer<Vec<u8>>
    ensures ready { IsReady result }
    ensures text { written result ≡ text }
{
    WriterBuilder::new()
        .flexible(true)
        .from_writer(text.into_vec())
}

/// Writes a record. A writer over memory fails for want of it alone.
fn write_record(writer: &mut Writer<Vec<u8>>, fields: &ByteRecord) -> Result<(), Memory>
    requires { IsReady writer.old }
    ensures ready { OnOk result (IsReady writer.new) }
    ensures text { OnOk result (written writer.new ≡ written writer.old ++ record_text (fields_of fields.now)) }
{
    match writer.write_byte_record(fields) {
        Ok(()) => Ok(()),
        Err(error) => {
            drop(error);
            Err(Memory)
        }
    }
}

/// The text that was written.
fn text_behind(writer: Writer<Vec<u8>>) -> Result<Bytes, Memory>
    ensures { IfOk result (λ text. text ≡ written writer) }
{
    match writer.into_inner() {
        Ok(text) => Ok(Bytes::from_vec(text)),
        Err(_) => Err(Memory),
    }
}

fn write_rows(writer: &mut Writer<Vec<u8>>, alloc: Global, rows: &[Row]) -> Result<(), Memory>
    requires { IsReady writer.old }
    ensures { OnOk result (written writer.new ≡ written writer.old ++ flat_map row_record rows.now) }
{
    let mut fields = ByteRecord::new(alloc);
    let mut field = Bytes::new(alloc);
    for row in rows {
        fill_row(&mut fields, &mut field, row)?;
        write_record(writer, &fields)?;
    }
    Ok(())
}

/// The record of the names of an array's dimensions and attributes, as `x,y,a,b`, with its line feed.
pub fn name_record(alloc: Global, schema: &Schema) -> Result<Bytes, Memory>
    ensures { IfOk result (λ text. text ≡ name_record schema.now) }
{
    let mut fields = ByteRecord::new(alloc);
    let mut field = Bytes::new(alloc);
    fill_names(&mut fields, &mut field, schema)?;
    let mut writer = writer_behind(Bytes::new(alloc));
    write_record(&mut writer, &fields)?;
    text_behind(writer)
}

/// Adds a record as `0,1,5,'t'` for each row, in their order. A fault has no text, and a cell in doubt no values.
pub fn push_records(text: &mut Bytes, rows: &[Row]) -> Result<(), Memory>
    ensures { OnOk result (text.new ≡ text.old ++ flat_map row_record rows.now) }
{
    let alloc = text.allocator();
    let mut writer = writer_behind(text.take());
    write_rows(&mut writer, alloc, rows)?;
    *text = text_behind(writer)?;
    Ok(())
}

/// The text of an array as CSV: the record of its names, and a record for each row, in their order. A fault has no text, and a
/// cell in doubt no values, so callers print arrays without them.
pub fn csv_plus(alloc: Global, schema: &Schema, rows: &[Row]) -> Result<Bytes, Memory>
    ensures { IfOk result (λ text. text ≡ csv_text schema.now rows.now) }
{
    let mut text = name_record(alloc, schema)?;
    push_records(&mut text, rows)?;
    Ok(text)
}
