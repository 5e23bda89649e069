//! The texts of arrays in chunks, band by band, so that the rows of one band at a time are in memory.
ghost use Rattle.std.specs.Prelude.{◌≡◌, ℕ, List, ◌++◌, IfOk, OnOk};
ghost use Rattle.std.specs.List.{flat_map};
ghost use Rattle.array_geom.specs.Link.{core_rows};
ghost use Rattle.array_parts.specs.Cores.{HaveCells, cores_of};
ghost use Rattle.array_parts.specs.Placed.{HavePlaces};
ghost use Rattle.chunk_cells.specs.Whole.{CoresRise};
ghost use Rattle.statement_replies.specs.Inner.Parts.{names_part, row_part};
ghost use Rattle.statement_replies.specs.Printed.{printed};

use crate::replies::style::Style;
use area_cells::{count_in_band, rows_of_chunks};
use array_geom::{Chunk, ChunkedArray};
use cell_values::{Bytes, Margins, Memory, Row, Schema};
use result_print::{name_record, push_lines, push_records, text_header};
use std::alloc::Global;

/// What stands before the rows.
fn names_part(alloc: Global, style: Style, schema: &Schema) -> Result<Bytes, Memory>
    ensures { IfOk result (λ text. text ≡ names_part style.csv schema.now) }
{
    if style.csv {
        name_record(alloc, schema)
    } else {
        text_header(alloc, schema)
    }
}

/// Adds a record or a line for each row.
fn push_rows(text: &mut Bytes, style: Style, rows: &[Row]) -> Result<(), Memory>
    ensures { OnOk result (text.new ≡ text.old ++ flat_map (row_part style.csv) rows.now) }
{
    if style.csv {
        push_records(text, rows)
    } else {
        push_lines(text, rows)
    }
}

/// Adds the rows of cores.
fn push_chunks(
    text: &mut Bytes,
    style: Style,
    schema: &Schema,
    margins: &Margins,
    chunks: &[Chunk],
) -> Result<(), Memory>
    requires places { HavePlaces schema.now margins.now.items chunks.now }
    requires cores { CoresRise schema.now.dimensions margins.now.items chunks.now }
    ensures { OnOk result (text.new ≡ text.old ++ flat_map (row_part style.csv) (core_rows schema.now.dimensions margins.now.items chunks.now)) }
{
    let rows = rows_of_chunks(schema, margins, chunks)?;
    push_rows(text, style, rows.as_slice())
}

/// The same, band by band.
fn push_cores(
    text: &mut Bytes,
    style: Style,
    schema: &Schema,
    margins: &Margins,
    chunks: &[Chunk],
) -> Result<(), Memory>
    requires { HaveCells schema.now margins.now.items chunks.now }
    ensures { OnOk result (text.new ≡ text.old ++ flat_map (row_part style.csv) (core_rows schema.now.dimensions margins.now.items chunks.now)) }
{
    let mut rest = chunks;
    while !rest.is_empty() {
        let (band, further) = rest.split_at(count_in_band(schema, rest));
        push_chunks(text, style, schema, margins, band)?;
        rest = further;
    }
    Ok(())
}

/// The text, in this style, of an array whose chunks have cells.
pub(crate) fn text_of(alloc: Global, style: Style, array: &ChunkedArray) -> Result<Bytes, Memory>
    requires { HaveCells array.now.schema array.now.margins.items array.now.chunks }
    ensures { IfOk result (λ text. text ≡ printed style array.now.schema (cores_of array.now)) }
{
    let mut text = names_part(alloc, style, &array.schema)?;
    push_cores(
        &mut text,
        style,
        &array.schema,
        &array.margins,
        array.chunks.as_slice(),
    )?;
    Ok(text)
}

/// A text with these lines behind it.
pub(crate) fn with_lines(text: Result<Bytes, Memory>, lines: &Bytes) -> Result<Bytes, Memory>
    ensures { (words : List ℕ) → IfOk text (λ t. t ≡ words) → IfOk result (λ whole. whole ≡ words ++ lines.now) }
{
    let mut text = text?;
    text.extend(lines.as_slice())?;
    Ok(text)
}
