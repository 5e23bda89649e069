//! Decoding payloads.
ghost use Rattle.std.specs.Prelude.{◌≡◌, ◌+◌, ◌<◌, ◌^◌, length, All, IfErr, IfOk, IsTrue, Ok};
ghost use Rattle.file_items.specs.Items.{IsRead};
ghost use Rattle.array_geom.specs.Schemas.{IsValid};
ghost use Rattle.array_geom.specs.Schema.{Schema as ASchema};
ghost use Rattle.array_geom.specs.Geometry.{has_core};
ghost use Rattle.array_geom.specs.declared.chunk.Chunk.{Chunk as AChunk};
ghost use Rattle.array_rows.specs.RowsIn.{AreLong};
ghost use Rattle.chunk_rle.specs.Chunks.{spelling, all_values, chunk_of, chunk_payload};
ghost use Rattle.chunk_rle.specs.Decoding.{Answers, IsWithin, Told};
ghost use Rattle.chunk_rle.specs.Frames.{frame_in, frame_of};
ghost use Rattle.chunk_rle.specs.Inner.Ready.{IsReady};
ghost use Rattle.chunk_rle.specs.Inner.Valued.{valued_payload};
ghost use Rattle.chunk_rle.specs.Longest.{positions_of};
ghost use Rattle.chunk_rle.specs.RunChunks.{cells_of, runs_of, AreRunsOf};
ghost use Rattle.chunk_rle.specs.Spelling.{spell_runs};
ghost use Rattle.chunk_rle.specs.Stored.{IsStored};
ghost use Rattle.chunk_rle.specs.Table.{payload};
ghost use Rattle.chunk_rle.specs.declared.runs.RunChunk.{RunChunk as ARunChunk};

use crate::columns::columns_values;
use crate::expanding::chunk_of_values;
use crate::places::{Places, places_of};
use crate::reading::{payload, position_runs};
use crate::runs::{ChunkRuns, PosRun, RunChunk, numbered};
use array_geom::{Attribute, Chunk, ChunkAt, List, Memory, Schema};
use array_rows::Column as Values;
use file_items::Stop;
use std::alloc::Global;

/// Why a payload could not be decoded.
#[derive(Clone, Copy)]
pub enum BadPayload {
    /// The offset of the first wrong item.
    At { at: u64 },
    Memory,
}

/// How a stop is told: by the offset from the front.
fn told(bytes: &[u8], stop: Stop) -> BadPayload
    ensures { Told result bytes.now stop }
{
    match stop {
        Stop::Memory => BadPayload::Memory,
        Stop::Left(left) => BadPayload::At {
            at: bytes.len().saturating_sub(left) as u64,
        },
    }
}

/// The runs of positions of a payload and the values of its columns, and nothing after them.
fn payload_values(
    alloc: Global,
    places: &Places,
    attributes: &[Attribute],
    bytes: &[u8],
) -> Result<(List<PosRun>, Vec<Values>), Stop>
    requires { IsReady places.now }
    ensures { IsRead (λ x. (x.0, x.1.items)) result (valued_payload (payload (frame_in places.now) attributes.now bytes.now)) }
{
    match position_runs(alloc, places, bytes) {
        Ok((positions, n, rest)) => match columns_values(alloc, attributes, n, rest) {
            Ok((columns, rest)) => {
                if rest.is_empty() {
                    Ok((positions, columns))
                } else {
                    Err(Stop::Left(rest.len()))
                }
            }
            Err(stop) => Err(stop),
        },
        Err(stop) => Err(stop),
    }
}

fn chunk_at(
    alloc: Global,
    places: &Places,
    at: &ChunkAt,
    attributes: &[Attribute],
    bytes: &[u8],
) -> Result<Chunk, Stop>
    requires { IsReady places.now }
    ensures { IsRead (λ x. x) result (chunk_payload (frame_in places.now) at.now attributes.now bytes.now) }
{
    match payload_values(alloc, places, attributes, bytes) {
        Ok((positions, columns)) => {
            match chunk_of_values(alloc, at, positions.as_slice(), columns) {
                Ok(chunk) => Ok(chunk),
                Err(Memory) => Err(Stop::Memory),
            }
        }
        Err(stop) => Err(stop),
    }
}

/// The chunk with this number that all of these bytes spell, or how many of them are left at the
/// first wrong item.
pub fn payload_chunk(
    alloc: Global,
    schema: &Schema,
    at: &ChunkAt,
    bytes: &[u8],
) -> Result<Chunk, Stop>
    requires valid { IsValid schema.now }
    requires core { IsTrue (has_core schema.now.dimensions at.now.items) }
    ensures read { IsRead (λ x. x) result (chunk_payload (frame_of schema.now at.now.items) at.now schema.now.attributes bytes.now) }
    ensures within { IfErr result (λ stop. IsWithin (length bytes.now) stop) }
{
    let places = places_of(schema, at);
    let attributes = schema.attributes.as_slice();
    chunk_at(alloc, &places, at, attributes, bytes)
}

/// The chunk with this number that these bytes spell. Bytes that spell none are refused at the offset
/// of the first item that the rules do not allow, that the end cuts, or that follows the last one.
pub fn decode(
    alloc: Global,
    schema: &Schema,
    at: &ChunkAt,
    bytes: &[u8],
) -> Result<Chunk, BadPayload>
    requires valid { IsValid schema.now }
    requires core { IsTrue (has_core schema.now.dimensions at.now.items) }
    // What is answered is a chunk that is spelled so.
    ensures stored { IfOk result (IsStored schema.now) }
    ensures number { IfOk result (λ chunk. chunk.at ≡ at.now) }
    ensures spelled { IfOk result (λ chunk. bytes.now ≡ spelling schema.now.attributes chunk) }
    // A chunk that is spelled so is answered, unless memory runs out.
    ensures only { (chunk : AChunk) → IsStored schema.now chunk → chunk.at ≡ at.now
        → bytes.now ≡ spelling schema.now.attributes chunk → Answers (λ x. x) result bytes.now (Ok chunk) }
    // Which item is the first wrong one.
    ensures exact { Answers (λ x. x) result bytes.now (chunk_payload (frame_of schema.now at.now.items) at.now schema.now.attributes bytes.now) }
{
    match payload_chunk(alloc, schema, at, bytes) {
        Ok(chunk) => Ok(chunk),
        Err(stop) => Err(told(bytes, stop)),
    }
}

fn stored_runs(
    alloc: Global,
    schema: &Schema,
    at: &ChunkAt,
    bytes: &[u8],
) -> Result<ChunkRuns, Stop>
    requires valid { IsValid schema.now }
    requires core { IsTrue (has_core schema.now.dimensions at.now.items) }
    ensures { IsRead (λ x. x) result (payload (frame_of schema.now at.now.items) schema.now.attributes bytes.now) }
{
    let places = places_of(schema, at);
    payload(alloc, &places, schema.attributes.as_slice(), bytes)
}

/// The chunk with this number that these bytes spell, run by run: no run is expanded. What is
/// answered is what `decode` answers: the chunk whose cells these runs are, or the same offset.
pub fn decode_runs(
    alloc: Global,
    schema: &Schema,
    at: &ChunkAt,
    bytes: &[u8],
) -> Result<RunChunk, BadPayload>
    requires valid { IsValid schema.now }
    requires core { IsTrue (has_core schema.now.dimensions at.now.items) }
    // Its items meet the table of payloads, and its cells are a chunk that is stored.
    ensures runs { IfOk result (AreRunsOf schema.now) }
    ensures stored { IfOk result (λ chunk. IsStored schema.now (cells_of chunk)) }
    ensures number { IfOk result (λ chunk. chunk.at ≡ at.now) }
    ensures spelled { IfOk result (λ chunk. bytes.now ≡ spell_runs (runs_of chunk)) }
    // Runs that are spelled so are answered, unless memory runs out.
    ensures only { (chunk : ARunChunk) → AreRunsOf schema.now chunk → chunk.at ≡ at.now
        → bytes.now ≡ spell_runs (runs_of chunk) → Answers (λ x. x) result bytes.now (Ok chunk) }
    // Its cells are those of `decode`, and so are its refusals.
    ensures exact { Answers cells_of result bytes.now (chunk_payload (frame_of schema.now at.now.items) at.now schema.now.attributes bytes.now) }
{
    match stored_runs(alloc, schema, at, bytes) {
        Ok(runs) => Ok(numbered(at, runs)),
        Err(stop) => Err(told(bytes, stop)),
    }
}

/// Two chunks with one number and one spelling are the same.
pub fn same_spelling_same_chunk()
    ensures { (schema : ASchema) (a b : AChunk) → IsStored schema a → IsStored schema b → a.at ≡ b.at
        → spelling schema.attributes a ≡ spelling schema.attributes b → a ≡ b }
{}
