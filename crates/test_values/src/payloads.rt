//! Payloads of chunks of two places.
ghost use Rattle.std.specs.Prelude.{◌≡◌, [], ◌∷◌, IfOk};
ghost use Rattle.array_geom.specs.Inner.Example.{example as area_example};
ghost use Rattle.chunk_rle.specs.Inner.Example.{example};

use crate::show::push_chunk;
use array_geom::Chunk;
use array_rows::Cells;
use cell_values::{Attribute, Bytes, ChunkAt, Dimension, Kind, List, Memory, Schema};
use chunk_rle::{BadPayload, decode, encode};
use std::alloc::Global;
use test_kit::{
    Transcript, bytes_in, cell_of, name_of, one_more, place_in, push_count, push_hex, push_word,
};

/// A number in each cell.
pub(crate) fn attributes(alloc: Global) -> Result<List<Attribute>, Memory>
    ensures line { IfOk result (λ attributes. attributes ≡ example.attributes) }
    ensures area { IfOk result (λ attributes. attributes ≡ area_example.attributes) }
{
    let name = name_of(alloc, b"v")?;
    let attribute = Attribute {
        name,
        kind: Kind::Int64,
        nullable: true,
    };
    one_more(List::new(alloc), attribute)
}

fn dimensions(alloc: Global) -> Result<List<Dimension>, Memory>
    ensures { IfOk result (λ dimensions. dimensions ≡ example.dimensions) }
{
    let name = name_of(alloc, b"i")?;
    let dimension = Dimension {
        name,
        lo: 0,
        hi: 1,
        chunk: 2,
        overlap: 0,
    };
    one_more(List::new(alloc), dimension)
}

/// Places 0 and 1 in one chunk, with a number each.
fn schema(alloc: Global) -> Result<Schema, Memory>
    ensures { IfOk result (λ schema. schema ≡ example) }
{
    Ok(Schema {
        attributes: attributes(alloc)?,
        dimensions: dimensions(alloc)?,
    })
}

fn first() -> ChunkAt
    ensures { result.items ≡ 0 ∷ [] }
{
    let mut at = ChunkAt::new();
    at.push(0);
    at
}

/// Adds the cells of these words.
fn push_all(chunk: &mut Chunk, words: &str) -> Result<(), Memory> {
    for word in words.split_whitespace() {
        let (place, held) = place_in(word);
        chunk.positions.push(place.unsigned_abs())?;
        let cell = cell_of(chunk.positions.allocator(), &[], held)?;
        chunk.cells.push(cell)?;
    }
    Ok(())
}

/// A chunk with the cells of these words.
pub(crate) fn chunk_in(alloc: Global, at: ChunkAt, words: &str) -> Result<Chunk, Memory> {
    let mut chunk = Chunk {
        at,
        positions: List::new(alloc),
        cells: Cells::new(alloc),
    };
    match push_all(&mut chunk, words) {
        Ok(()) => Ok(chunk),
        Err(Memory) => {
            drop(chunk);
            Err(Memory)
        }
    }
}

fn payload_of(alloc: Global, chunk: &Chunk) -> Result<Bytes, Memory> {
    let schema = schema(alloc)?;
    let payload = encode(alloc, &schema, chunk);
    drop(schema);
    payload
}

fn push_payload(out: &mut Transcript, chunk: &Chunk) {
    match payload_of(out.alloc(), chunk) {
        Ok(payload) => {
            push_hex(out, payload.as_slice());
            drop(payload);
            push_word(out, "\n");
        }
        Err(Memory) => out.note_short(),
    }
}

/// Adds the payload of a chunk with these cells.
pub(crate) fn push_spelled(out: &mut Transcript, words: &str) {
    match chunk_in(out.alloc(), first(), words) {
        Ok(chunk) => {
            push_payload(out, &chunk);
            drop(chunk);
        }
        Err(Memory) => out.note_short(),
    }
}

fn decoded(alloc: Global, bytes: &[u8]) -> Result<Chunk, BadPayload> {
    match schema(alloc) {
        Ok(schema) => {
            let at = first();
            decode(alloc, &schema, &at, bytes)
        }
        Err(Memory) => Err(BadPayload::Memory),
    }
}

fn push_decoded(out: &mut Transcript, decoded: Result<Chunk, BadPayload>) {
    match decoded {
        Ok(chunk) => {
            push_chunk(out, &chunk);
            drop(chunk);
        }
        Err(BadPayload::At { at }) => {
            push_word(out, "wrong at ");
            push_count(out, at);
            push_word(out, "\n");
        }
        Err(BadPayload::Memory) => push_word(out, "no memory\n"),
    }
}

/// Adds the chunk of a payload, or the place of its first wrong item.
pub(crate) fn push_read(out: &mut Transcript, digits: &str) {
    match bytes_in(out.alloc(), digits) {
        Ok(bytes) => {
            let chunk = decoded(out.alloc(), bytes.as_slice());
            drop(bytes);
            push_decoded(out, chunk);
        }
        Err(Memory) => out.note_short(),
    }
}
