//! The payload that a chunk has beside the cores of its neighbours.
ghost use Rattle.std.specs.Prelude.{◌≡◌, IfOk, IsTrue};
ghost use Rattle.std.specs.List.{AllByRecursion};
ghost use Rattle.array_geom.specs.Geometry.{has_core, overlaps};
ghost use Rattle.array_geom.specs.Link.{NumbersRise, core_rows, numbers};
ghost use Rattle.array_geom.specs.Schemas.{IsValid};
ghost use Rattle.chunk_rle.specs.Stored.{IsStored};
ghost use Rattle.backup_format.specs.Pieces.{stored_payload};

use area_cells::{chunk_of_rows, rows_in_area};
use array_geom::{Bytes, Chunk, ChunkAt, Memory, Schema, frame, margins_of};
use chunk_rle::encode;
use std::alloc::Global;

/// The payload of the chunk with this number: of the rows that the cores of chunks hold in its
/// frame, whatever their overlaps hold.
pub fn payload_of_cores(
    alloc: Global,
    schema: &Schema,
    chunks: &[Chunk],
    number: &ChunkAt,
) -> Result<Bytes, Memory>
    requires valid { IsValid schema.now }
    requires core { IsTrue (has_core schema.now.dimensions number.now.items) }
    requires stored { AllByRecursion (IsStored schema.now) chunks.now }
    requires rise { NumbersRise (numbers chunks.now) }
    ensures { IfOk result (λ bytes. bytes
        ≡ stored_payload schema.now (core_rows schema.now.dimensions (overlaps schema.now.dimensions) chunks.now) number.now.items) }
{
    let margins = margins_of(schema);
    let area = frame(schema, &margins, number);
    let rows = rows_in_area(schema, &margins, chunks, &area)?;
    let chunk = chunk_of_rows(schema, &margins, number, rows)?;
    encode(alloc, schema, &chunk)
}
