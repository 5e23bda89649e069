//! Arrays through an operator.
ghost use Rattle.std.specs.Prelude.{◌≡◌, None, IfOk};
ghost use Rattle.cell_values.specs.Schemas.{IsValid};
ghost use Rattle.array_parts.specs.Cores.{HasCells};
ghost use Rattle.array_parts.specs.Parts.{IsLocal};
ghost use Rattle.exec_box.specs.Made.{IsMadeOf};

use crate::operators::chunks::over_chunks;
use afl_outside::Gate;
use array_geom::ChunkedArray;
use array_parts::ChunkOperator;
use cell_values::{Memory, Schema};
use chunk_workers::Crew;
use std::thread::Threads;

/// What an operator makes of an array, chunk by chunk: an array of this schema, which has the same dimensions.
pub fn over_array<R: Threads + Sync, O: ChunkOperator + Sync, G: Gate>(
    crew: &mut Crew<'_, R, G>,
    array: ChunkedArray,
    schema: Schema,
    operator: &O,
) -> Result<ChunkedArray, Memory>
    requires whole { array.broken ≡ None }
    requires cells { HasCells array }
    requires valid { IsValid schema }
    requires dimensions { schema.dimensions ≡ array.schema.dimensions }
    requires local { IsLocal (O.operator operator.now) }
    ensures { IfOk result (IsMadeOf (O.operator operator.now) schema array) }
{
    let ChunkedArray {
        schema: old,
        margins,
        chunks,
        broken: _,
    } = array;
    let chunks = over_chunks(crew, &old, &margins, chunks, operator)?;
    Ok(ChunkedArray {
        schema,
        margins,
        chunks,
        broken: None,
    })
}
