//! The texts of an array.

use crate::schemas::schema_in;
use cell_values::{Bytes, Cell, Datum, List, Memory, Row, Schema, coord_of};
use result_print::{csv_plus, dcsv};
use test_kit::{Transcript, one_more, push_made};

/// Adds a cell that holds this text, behind the others.
fn push_row(rows: &mut List<Row>, text: &[u8]) -> Result<(), Memory> {
    let at = i64::try_from(rows.len()).unwrap_or(0);
    let text = Bytes::from_slice(rows.allocator(), text)?;
    let values = one_more(List::new(rows.allocator()), Datum::Text(text))?;
    rows.push(Row {
        at: coord_of(&[at]),
        cell: Cell::Full(values),
    })
}

/// Adds both texts of the array of this schema whose cells are the parts of a text between each `|`.
fn push_parts(out: &mut Transcript, schema: &Schema, text: &str) {
    let alloc = out.alloc();
    let mut rows = List::new(alloc);
    for part in text.split('|') {
        let added = push_row(&mut rows, part.as_bytes());
        out.note(added.is_ok());
    }
    push_made(out, dcsv(alloc, schema, rows.as_slice()));
    push_made(out, csv_plus(alloc, schema, rows.as_slice()));
    drop(rows);
}

/// Adds both texts of the array of these cells, from coordinate 0 on.
pub(crate) fn push_cells(out: &mut Transcript, text: &str) {
    if let Some(schema) = schema_in(out.alloc(), b"<v:string>[i=0:*,10,0]") {
        push_parts(out, &schema, text);
        drop(schema);
    }
}
