//! What is told of values, boxes and chunks.

use array_geom::Chunk;
use cell_values::{Bounds, Cell, Datum, List, Memory};
use test_kit::{Transcript, push_coord, push_value, push_word, push_words};

/// Adds what a call gives.
pub(crate) fn push_result(out: &mut Transcript, given: Result<Datum, Memory>) {
    match given {
        Ok(value) => push_value(out, value),
        Err(Memory) => out.note_short(),
    }
}

fn cells_of(chunk: &Chunk) -> Result<List<Cell>, Memory> {
    let copy = chunk.cells.copy()?;
    copy.into_list()
}

/// Adds a chunk's number, and what it holds at each of its positions.
pub(crate) fn push_chunk(out: &mut Transcript, chunk: &Chunk) {
    match cells_of(chunk) {
        Ok(cells) => {
            test_kit::push_chunk(out, &chunk.at, chunk.positions.as_slice(), cells.as_slice());
            drop(cells);
        }
        Err(Memory) => out.note_short(),
    }
}

/// Adds the corners of a box.
pub(crate) fn push_corners(out: &mut Transcript, area: &Bounds) {
    push_coord(out, &area.lo);
    push_word(out, " to ");
    push_coord(out, &area.hi);
}

/// Adds a line with the corners of a box.
pub(crate) fn push_box(out: &mut Transcript, title: &str, area: &Bounds) {
    push_words(out, &[title, " "]);
    push_corners(out, area);
    push_word(out, "\n");
}
