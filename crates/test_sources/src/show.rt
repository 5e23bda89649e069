//! What is told of arrays, and of the sources that gave them.
ghost use Rattle.array_parts.specs.Placed.{HavePlaces, IsSound};

use array_geom::{Chunk, ChunkedArray};
use cell_values::{Broken, Cell, Datum, List, Memory, Row};
use chunk_cells::rows;
use chunk_source::{Asked, ChunkSource, ExecFault};
use test_kit::{
    Transcript, push_cell, push_chunk, push_coord, push_count, push_datum, push_number, push_word,
};

fn cells_of(chunk: &Chunk) -> Result<List<Cell>, Memory> {
    let copy = chunk.cells.copy()?;
    copy.into_list()
}

fn push_one(out: &mut Transcript, chunk: &Chunk) {
    match cells_of(chunk) {
        Ok(cells) => {
            push_chunk(out, &chunk.at, chunk.positions.as_slice(), cells.as_slice());
            drop(cells);
        }
        Err(Memory) => out.note_short(),
    }
}

/// Adds chunks.
pub(crate) fn push_chunks(out: &mut Transcript, chunks: &[Chunk]) {
    for chunk in chunks {
        push_one(out, chunk);
    }
}

fn push_rows(out: &mut Transcript, rows: &[Row]) {
    for row in rows {
        push_word(out, "cell ");
        push_coord(out, &row.at);
        push_cell(out, &row.cell);
        push_word(out, "\n");
    }
}

pub(crate) fn push_broken(out: &mut Transcript, broken: &Broken) {
    push_word(out, "broken at ");
    push_coord(out, &broken.at);
    push_word(out, ": ");
    push_datum(out, &Datum::Bad(broken.kind));
    push_word(out, "\n");
}

fn push_held(out: &mut Transcript, array: &ChunkedArray)
    requires { HavePlaces array.now.schema array.now.margins.items array.now.chunks }
{
    match rows(array) {
        Ok(rows) => {
            push_rows(out, rows.as_slice());
            drop(rows);
        }
        Err(Memory) => out.note_short(),
    }
}

/// Adds the cells of an array, by their coordinates.
pub(crate) fn push_cells(out: &mut Transcript, array: &ChunkedArray)
    requires { IsSound array.now }
{
    match &array.broken {
        Some(broken) => push_broken(out, broken),
        None => push_held(out, array),
    }
}

/// Adds which page is damaged.
fn push_damaged(out: &mut Transcript, page: u32) {
    push_word(out, "page ");
    push_count(out, u64::from(page));
    push_word(out, " is damaged");
}

/// Adds why there is no array.
pub(crate) fn push_cause(out: &mut Transcript, cause: ExecFault) {
    match cause {
        ExecFault::Source => push_word(out, "the source failed"),
        ExecFault::Damaged { page } => push_damaged(out, page),
        ExecFault::Memory => push_word(out, "no memory"),
    }
    push_word(out, "\n");
}

/// Adds how often a source has failed, and the page that it found damaged.
pub(crate) fn push_faults<S: ChunkSource>(out: &mut Transcript, source: &S) {
    push_count(out, source.faults());
    push_word(out, " failed");
    if let Some(page) = source.damaged() {
        push_word(out, ", ");
        push_damaged(out, page);
    }
    push_word(out, "\n");
}

/// Adds the chunks that were asked for.
pub(crate) fn push_asked(out: &mut Transcript, asked: &[Asked]) {
    push_word(out, "asked for");
    for one in asked {
        push_word(out, " leaf ");
        push_count(out, u64::from(one.leaf));
        push_word(out, " ");
        push_number(out, &one.at);
    }
    push_word(out, "\n");
}
