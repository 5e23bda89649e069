//! How many chunks of an array are asked for, and how many it has.
ghost use Rattle.std.specs.Prelude.{◌≡◌, IfOk};
ghost use Rattle.std.specs.List.{count_by};
ghost use Rattle.array_geom.specs.Geometry.{core_meets};
ghost use Rattle.cell_values.specs.Schemas.{IsValid};
ghost use Rattle.changed_chunks.specs.Listed.{chunks_among, is_sized};
ghost use Rattle.changed_chunks.specs.Traced.{asking_where};

use array_geom::chunks_meeting;
use cell_values::{Bounds, ChunkAt, Memory, Schema};
use logical_plan::Leaf;
use std::alloc::Global;

/// How many chunks of a version of an array are asked for, and how many it has.
#[derive(Clone, Copy)]
pub struct Asking {
    pub asked: u64,
    pub stored: u64,
}

/// Whether a chunk's number has a place for each dimension.
fn is_sized(schema: &Schema, at: &ChunkAt) -> bool
    ensures { result ≡ is_sized schema.now.dimensions at.now }
{
    at.len() == schema.dimensions.len()
}

/// How many of these numbers have a place for each dimension.
pub fn count_chunks(schema: &Schema, chunks: &[ChunkAt]) -> u64
    ensures { result ≡ count_by (is_sized schema.now.dimensions) chunks.now }
{
    let mut count = 0;
    for at in chunks {
        if is_sized(schema, at) {
            count += 1;
        }
    }
    count
}

/// How many of the listed chunks of a leaf have a core that meets a box, and how many there are. Numbers of another size are no chunk's.
pub(crate) fn asking_for(
    alloc: Global,
    leaf: &Leaf,
    area: &Bounds,
    listed: &[ChunkAt],
) -> Result<Asking, Memory>
    requires { IsValid leaf.now.schema }
    ensures { let dims = leaf.now.schema.dimensions in
        IfOk result (λ asking. asking ≡ asking_where (core_meets dims area.now) (chunks_among dims listed.now)) }
{
    let wanted = chunks_meeting(alloc, &leaf.schema, area, listed)?;
    let asked = count_chunks(&leaf.schema, wanted.as_slice());
    let stored = count_chunks(&leaf.schema, listed);
    Ok(Asking { asked, stored })
}
