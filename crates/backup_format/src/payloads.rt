//! Reading payloads.
ghost use Rattle.std.specs.Prelude.{◌≡◌, ◌+◌, ◌<◌, drop, length, take, IfOk, IsTrue, Ok};
ghost use Rattle.cell_values.specs.Schemas.{IsValid};
ghost use Rattle.array_geom.specs.Geometry.{has_core};
ghost use Rattle.file_items.specs.Items.{IsRead};
ghost use Rattle.backup_format.specs.Table.{chunk_in, payload_at};

use array_geom::Chunk;
use cell_values::{ChunkAt, Schema};
use chunk_rle::payload_chunk;
use file_items::{Stop, positive};
use std::alloc::Global;

/// So many bytes, or as many as there are, and the bytes behind them.
fn cut(bytes: &[u8], size: u64) -> (&[u8], &[u8])
    ensures front { result.0.now ≡ take size bytes.now }
    ensures back { result.1.now ≡ drop size bytes.now }
{
    let count = if size < bytes.len() as u64 {
        size as usize
    } else {
        bytes.len()
    };
    bytes.split_at(count)
}

/// A payload behind its length, and the chunk that it is of.
#[tactic(auto, unfolding(crate::specs::Table::payload_at))]
pub(crate) fn payload<'a>(
    alloc: Global,
    schema: &Schema,
    at: &ChunkAt,
    bytes: &'a [u8],
) -> Result<(Chunk, &'a [u8], &'a [u8]), Stop>
    requires valid { IsValid schema.now }
    requires core { IsTrue (has_core schema.now.dimensions at.now.items) }
    ensures read { IsRead (λ x. (x.1.now, x.2.now)) result (payload_at schema.now at.now.items bytes.now) }
    ensures chunk { IfOk result (λ x. chunk_in schema.now at.now.items x.1.now ≡ Ok x.0) }
{
    let (size, rest) = match positive(bytes) {
        Ok(read) => read,
        Err(stop) => return Err(stop),
    };
    let (own, behind) = cut(rest, size);
    match payload_chunk(alloc, schema, at, own) {
        Ok(chunk) => {
            if (rest.len() as u64) < size {
                Err(Stop::Left(0))
            } else {
                Ok((chunk, own, behind))
            }
        }
        Err(Stop::Left(left)) => Err(Stop::Left(left + behind.len())),
        Err(Stop::Memory) => Err(Stop::Memory),
    }
}
