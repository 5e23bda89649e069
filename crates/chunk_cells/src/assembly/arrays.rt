//! An array in chunks from the rows of its cells.
ghost use Rattle.std.specs.Prelude.{◌≡◌, ◌≤◌, ◌^◌, Ok, length, OnOk, IfOk};
ghost use Rattle.std.specs.List.{AllByRecursion};
ghost use Rattle.array_rows.specs.Arrays.{AreRowsOf};
ghost use Rattle.array_geom.specs.Geometry.{frame_lengths, volume};
ghost use Rattle.array_geom.specs.Link.{AreChunksOf, Is, IsPart, NumbersRise, numbers};
ghost use Rattle.chunk_cells.specs.Frames.{AreFramed, HasFrames, HasNoCells};
ghost use Rattle.chunk_cells.specs.Inner.Numbers.{numbers_in};

use crate::assembly::numbers::cores_of;
use crate::assembly::parts::put_row;
use array_geom::{Chunk, ChunkedArray};
use array_rows::Cells;
use cell_values::{ChunkAt, List, Margins, Memory, Row, Schema, copy_numbers};
use std::alloc::Global;

fn empty_chunks(alloc: Global, listed: &[ChunkAt]) -> Result<Vec<Chunk>, Memory>
    ensures same { IfOk result (λ chunks. numbers chunks.items ≡ numbers_in listed.now) }
    ensures empty { IfOk result (λ chunks. AllByRecursion HasNoCells chunks.items) }
{
    let mut chunks = List::with_capacity(alloc, listed.len())?;
    for number in listed {
        chunks.push(Chunk {
            at: copy_numbers(number),
            positions: List::new(alloc),
            cells: Cells::new(alloc),
        })?;
    }
    Ok(chunks.into_vec())
}

fn put_rows(
    schema: &Schema,
    margins: &Margins,
    listed: &[ChunkAt],
    chunks: &mut Vec<Chunk>,
    rows: &[Row],
) -> Result<(), Memory>
    requires frames { HasFrames schema.now margins.now.items }
    requires in_order { NumbersRise (numbers_in listed.now) }
    requires framed { AreFramed schema.now.dimensions (numbers_in listed.now) }
    requires same { numbers chunks.old.items ≡ numbers_in listed.now }
    requires empty { AllByRecursion HasNoCells chunks.old.items }
    requires rows { AreRowsOf schema.now rows.now }
    ensures same { OnOk result (numbers chunks.new.items ≡ numbers_in listed.now) }
    ensures parts { OnOk result (AllByRecursion (IsPart schema.now.dimensions margins.now.items rows.now) chunks.new.items) }
{
    for row in rows {
        put_row(schema, margins, listed, chunks, row)?;
    }
    Ok(())
}

fn chunks_of(schema: &Schema, margins: &Margins, rows: &[Row]) -> Result<List<Chunk>, Memory>
    requires frames { HasFrames schema.now margins.now.items }
    requires rows { AreRowsOf schema.now rows.now }
    ensures { IfOk result (λ chunks. AreChunksOf schema.now.dimensions margins.now.items rows.now chunks) }
{
    let listed = cores_of(schema, rows)?;
    let mut chunks = empty_chunks(schema.dimensions.allocator(), listed.as_slice())?;
    put_rows(schema, margins, listed.as_slice(), &mut chunks, rows)?;
    Ok(List::from_vec(chunks))
}

/// The array that has these rows, in chunks with these margins.
pub fn assemble(schema: &Schema, margins: &Margins, rows: &[Row]) -> Result<ChunkedArray, Memory>
    requires rows { AreRowsOf schema.now rows.now }
    requires margins { length margins.now.items ≡ length schema.now.dimensions }
    requires places { volume (frame_lengths schema.now.dimensions margins.now.items) ≤ 2 ^ 48 }
    ensures array { IfOk result (λ array. Is array (record { schema = schema.now; rows = Ok rows.now })) }
    ensures margins { IfOk result (λ array. array.margins ≡ margins.now) }
{
    Ok(ChunkedArray {
        schema: schema.copy()?,
        margins: copy_numbers(margins),
        chunks: chunks_of(schema, margins, rows)?,
        broken: None,
    })
}
