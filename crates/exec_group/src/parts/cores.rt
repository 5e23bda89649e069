//! The cells of a chunk's core.
ghost use Rattle.std.specs.Prelude.{◌≡◌, ◌∷◌, [], ◌^◌, ◌<◌, length, IsTrue, IfOk};
ghost use Rattle.std.specs.List.{All};
ghost use Rattle.array_rows.specs.Boxes.{is_inside, bounds_of};
ghost use Rattle.array_rows.specs.Rows.{IsRising};
ghost use Rattle.array_parts.specs.Cores.{HaveCells};
ghost use Rattle.group_rows.specs.Inner.Keys.{core_of};

use array_geom::{Chunk, ChunkedArray};
use cell_values::{List, Margins, Memory, Row, Schema, copy_numbers};
use group_rows::rows_of_cores;

/// The array of one chunk, whose cells are moved.
fn alone(schema: &Schema, margins: &Margins, chunk: Chunk) -> Result<ChunkedArray, Memory>
    ensures schema { IfOk result (λ array. array.schema ≡ schema.now) }
    ensures margins { IfOk result (λ array. array.margins ≡ margins.now) }
    ensures chunks { IfOk result (λ array. array.chunks ≡ chunk ∷ []) }
{
    let mut chunks = chunk.positions.another();
    chunks.push(chunk)?;
    Ok(ChunkedArray {
        schema: schema.copy()?,
        margins: copy_numbers(margins),
        chunks,
        broken: None,
    })
}

/// The rows of a chunk's core, without those of its margins. The cells are moved.
pub(crate) fn rows_of_core(
    schema: &Schema,
    margins: &Margins,
    chunk: Chunk,
) -> Result<List<Row>, Memory>
    requires { HaveCells schema.now margins.now.items (chunk ∷ []) }
    ensures rows { IfOk result (λ rows. rows ≡ core_of schema.now.dimensions margins.now.items chunk) }
    ensures few { IfOk result (λ rows. length rows < 2 ^ 63) }
    ensures rising { IfOk result IsRising }
    ensures inside { IfOk result (All (λ row. IsTrue (is_inside (bounds_of schema.now.dimensions) row.at.items))) }
{
    let array = alone(schema, margins, chunk)?;
    rows_of_cores(array)
}
