//! Arrays cut to a box.
ghost use Rattle.std.specs.Prelude.{◌≡◌, None, IfOk};
ghost use Rattle.cell_values.specs.Schemas.{IsValid};
ghost use Rattle.array_rows.specs.Boxes.{within};
ghost use Rattle.array_parts.specs.Cores.{HasCells};
ghost use Rattle.exec_box.specs.Made.{IsMadeOf};

use crate::chunks::between_chunk;
use crate::operators::made::over_array;
use afl_outside::Gate;
use array_geom::{Chunk, ChunkedArray};
use array_parts::ChunkOperator;
use cell_values::{Bounds, Margins, Memory, Schema};
use chunk_workers::Crew;
use std::thread::Threads;

/// A box to which arrays are cut.
#[derive(Drop)]
struct Cut<'a> {
    area: &'a Bounds,
}

impl ChunkOperator for Cut<'_> {
    ghost operator = { λ cut. within cut.area.now };

    fn apply(&self, schema: &Schema, margins: &Margins, chunk: Chunk) -> Result<Chunk, Memory> {
        between_chunk(schema, margins, chunk, self.area)
    }
}

/// The cells in a box.
pub fn between<R: Threads + Sync, G: Gate>(
    crew: &mut Crew<'_, R, G>,
    array: ChunkedArray,
    schema: Schema,
    area: &Bounds,
) -> Result<ChunkedArray, Memory>
    requires whole { array.broken ≡ None }
    requires cells { HasCells array }
    requires valid { IsValid schema }
    requires dimensions { schema.dimensions ≡ array.schema.dimensions }
    ensures { IfOk result (IsMadeOf (within area.now) schema array) }
{
    over_array(crew, array, schema, &Cut { area })
}
