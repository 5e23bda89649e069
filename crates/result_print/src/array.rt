//! The text of an array.
ghost use Rattle.std.specs.Prelude.{◌≡◌, ◌++◌, IfOk, OnOk};
ghost use Rattle.std.specs.List.{flat_map};
ghost use Rattle.result_print.specs.Texts.{array_text, header, line_of, values_text};

use crate::spelling::{write_list, write_place};
use cell_values::{Bytes, Cell, List, Memory, Row, Schema};
use std::alloc::Global;

fn write_header(out: &mut Bytes, schema: &Schema) -> Result<(), Memory>
    ensures { OnOk result (out.new ≡ out.old ++ header schema.now) }
{
    out.push(b'{')?;
    write_list(out, schema.dimensions.as_slice())?;
    out.extend(b"} ")?;
    write_list(out, schema.attributes.as_slice())?;
    out.push(b'\n')
}

fn write_values(out: &mut Bytes, cell: &Cell) -> Result<(), Memory>
    ensures { OnOk result (out.new ≡ out.old ++ values_text cell.now) }
{
    match cell {
        Cell::Full(values) => write_list(out, values.as_slice()),
        Cell::Doubt(_) => Ok(()),
    }
}

fn write_line(out: &mut Bytes, row: &Row) -> Result<(), Memory>
    ensures { OnOk result (out.new ≡ out.old ++ line_of row.now) }
{
    write_place(out, row.at.as_slice())?;
    out.push(b' ')?;
    write_values(out, &row.cell)?;
    out.push(b'\n')
}

/// The header of an array's text, as `{x,y} a,b`, with its line feed.
pub fn text_header(alloc: Global, schema: &Schema) -> Result<Bytes, Memory>
    ensures { IfOk result (λ text. text ≡ header schema.now) }
{
    let mut text = List::new(alloc);
    write_header(&mut text, schema)?;
    Ok(text)
}

/// Adds a line as `{0,1} 5,'t'` for each row, in their order. A fault has no text, and a cell in doubt no values.
pub fn push_lines(text: &mut Bytes, rows: &[Row]) -> Result<(), Memory>
    ensures { OnOk result (text.new ≡ text.old ++ flat_map line_of rows.now) }
{
    for row in rows {
        write_line(text, row)?;
    }
    Ok(())
}

/// The text of an array: a header as `{x,y} a,b`, and a line as `{0,1} 5,'t'` for each row, in their order. A fault has no
/// text, and a cell in doubt no values, so callers print arrays without them.
pub fn dcsv(alloc: Global, schema: &Schema, rows: &[Row]) -> Result<Bytes, Memory>
    ensures { IfOk result (λ text. text ≡ array_text schema.now rows.now) }
{
    let mut text = text_header(alloc, schema)?;
    push_lines(&mut text, rows)?;
    Ok(text)
}
