//! How chunks are spelled and read, and where their cells are.
//!
//! `spell 0:5 1:5` is answered by the payload of a chunk with these cells, in hexadecimal digits, and `read 0100` by the
//! chunk of a payload or the place of its first wrong item. `place`, `frame`, `chunks`, `boxes` and `copies` call what tells
//! places, on an array of four times five places in chunks of two times three.
ghost use Rattle.std.specs.Prelude.{◌≡◌, [], ◌∷◌, IfOk};
ghost use Rattle.array_rows.specs.Boxes.{corners};
ghost use Rattle.array_geom.specs.Inner.Example.{dimension, example};

use crate::payloads::{attributes, chunk_in, push_read, push_spelled};
use crate::show::{push_box, push_chunk};
use array_geom::{
    Boxes, Changed, Chunk, ChunkedArray, chunk_of, chunks_meeting, core_box, frame, place, position,
};
use cell_values::{Bounds, ChunkAt, Coord, Dimension, List, Memory, Name, Schema, coord_of};
use std::alloc::Global;
use test_kit::{
    Transcript, name_of, one_more, push_coord, push_count, push_number, push_word, push_words,
    truth_word,
};

fn dimension(name: Name, lo: i64, hi: i64, chunk: u64) -> Dimension
    ensures { result ≡ dimension name lo hi chunk 1 }
{
    Dimension {
        name,
        lo,
        hi,
        chunk,
        overlap: 1,
    }
}

fn dimensions(alloc: Global) -> Result<List<Dimension>, Memory>
    ensures { IfOk result (λ dimensions. dimensions ≡ example.dimensions) }
{
    let x = dimension(name_of(alloc, b"x")?, -1, 2, 2);
    let dimensions = one_more(List::new(alloc), x)?;
    let y = dimension(name_of(alloc, b"y")?, 0, 4, 3);
    one_more(dimensions, y)
}

/// Places from -1 to 2 and from 0 to 4, in chunks of two and three.
fn schema(alloc: Global) -> Result<Schema, Memory>
    ensures { IfOk result (λ schema. schema ≡ example) }
{
    Ok(Schema {
        attributes: attributes(alloc)?,
        dimensions: dimensions(alloc)?,
    })
}

fn numbers(a: u64, b: u64) -> ChunkAt
    ensures { result.items ≡ a ∷ b ∷ [] }
{
    let mut numbers = ChunkAt::new();
    numbers.push(a);
    numbers.push(b);
    numbers
}

fn at(x: i64, y: i64) -> Coord
    ensures { result.items ≡ x ∷ y ∷ [] }
{
    coord_of(&[x, y])
}

fn push_found(out: &mut Transcript, found: &ChunkAt, number: u64, back: &Coord) {
    push_number(out, found);
    push_word(out, " place ");
    push_count(out, number);
    push_word(out, " ");
    push_coord(out, back);
    push_word(out, "\n");
}

/// Adds the chunk of a coordinate, its place in the frame, and the coordinate of that place.
fn push_place_in(out: &mut Transcript, schema: &Schema)
    requires { schema.now ≡ example }
{
    let cell = at(1, 4);
    let chunk = numbers(1, 1);
    let margins = numbers(1, 1);
    let found = chunk_of(schema, &cell);
    let number = position(schema, &margins, &chunk, &cell);
    let back = place(schema, &margins, &chunk, number);
    push_found(out, &found, number, &back);
}

/// Adds the core of the last chunk, which the bounds cut, and its frame.
fn push_frame_in(out: &mut Transcript, schema: &Schema)
    requires { schema.now ≡ example }
{
    let chunk = numbers(1, 1);
    let margins = numbers(1, 1);
    let core = core_box(schema, &chunk);
    let frame = frame(schema, &margins, &chunk);
    push_box(out, "core", &core);
    push_box(out, "frame", &frame);
}

fn push_numbers(out: &mut Transcript, numbers: &[ChunkAt]) {
    for number in numbers {
        push_number(out, number);
    }
    push_word(out, "\n");
}

/// Adds those of four chunks whose cores meet a box.
fn push_meeting(out: &mut Transcript, schema: &Schema)
    requires { schema.now ≡ example }
{
    let area = Bounds {
        lo: at(-1, 3),
        hi: at(0, 9),
    };
    let listed = [numbers(0, 0), numbers(0, 1), numbers(1, 1), numbers(9, 1)];
    match chunks_meeting(out.alloc(), schema, &area, &listed) {
        Ok(found) => {
            push_numbers(out, found.as_slice());
            drop(found);
        }
        Err(Memory) => out.note_short(),
    }
}

fn push_places_in(out: &mut Transcript, word: &str, schema: &Schema)
    requires { schema.now ≡ example }
{
    match word {
        "place" => push_place_in(out, schema),
        "frame" => push_frame_in(out, schema),
        _ => push_meeting(out, schema),
    }
}

/// Adds what a call on the array gives.
fn push_places(out: &mut Transcript, word: &str) {
    match schema(out.alloc()) {
        Ok(schema) => {
            push_places_in(out, word, &schema);
            drop(schema);
        }
        Err(Memory) => out.note_short(),
    }
}

/// Adds whether a box holds a coordinate, the box moved, and what it shares with another.
fn push_tests(out: &mut Transcript, area: &Bounds, moved: &Bounds) {
    let last = truth_word(area.holds(&at(3, 2)));
    let behind = truth_word(area.holds(&at(3, 3)));
    push_words(out, &[last, " ", behind, "\n"]);
    push_box(out, "moved", moved);
    let other = Bounds {
        lo: at(0, 1),
        hi: at(2, 9),
    };
    push_box(out, "shared", &area.meet(&other));
}

fn push_boxes(out: &mut Transcript) {
    let lo = at(2, 0);
    let hi = at(3, 2);
    let by = at(-2, 5);
    let area = Bounds { lo, hi };
    let moved = area.shift(&by);
    push_tests(out, &area, &moved);
}

fn push_listed(out: &mut Transcript, chunks: &[Chunk]) {
    for chunk in chunks {
        push_chunk(out, chunk);
    }
}

/// A copy of an array of one cell, at place 7 of the last chunk.
fn copied_array(alloc: Global) -> Result<ChunkedArray, Memory> {
    let chunk = chunk_in(alloc, numbers(1, 1), "7:5")?;
    let chunks = one_more(List::new(alloc), chunk)?;
    match schema(alloc) {
        Ok(schema) => {
            let array = ChunkedArray {
                schema,
                margins: numbers(1, 1),
                chunks,
                broken: None,
            };
            let copy = array.copy();
            drop(array);
            copy
        }
        Err(Memory) => {
            drop(chunks);
            Err(Memory)
        }
    }
}

/// Adds the chunks of a copy of a change.
fn push_changed(out: &mut Transcript, changed: &Changed) {
    match changed.copy() {
        Ok(copy) => {
            push_words(out, &["whole ", truth_word(copy.whole), "\n"]);
            push_listed(out, copy.chunks.as_slice());
            drop(copy);
        }
        Err(Memory) => out.note_short(),
    }
}

/// Adds the chunks of an array, and those of a copy of a change that has them.
fn push_array(out: &mut Transcript, array: ChunkedArray) {
    push_listed(out, array.chunks.as_slice());
    let changed = Changed {
        schema: array.schema,
        whole: true,
        chunks: array.chunks,
    };
    push_changed(out, &changed);
    drop(changed);
}

/// Adds the chunks of copies of an array and of a change.
fn push_copies(out: &mut Transcript) {
    match copied_array(out.alloc()) {
        Ok(copy) => push_array(out, copy),
        Err(Memory) => out.note_short(),
    }
}

/// Adds what a call on chunks and their places gives.
pub(crate) fn push_chunk_call(out: &mut Transcript, word: &str, operands: &str) {
    match word {
        "spell" => push_spelled(out, operands),
        "read" => push_read(out, operands),
        "boxes" => push_boxes(out),
        "copies" => push_copies(out),
        word => push_places(out, word),
    }
}
