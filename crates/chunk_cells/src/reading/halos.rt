//! The cells of an array in chunks with other margins.
ghost use Rattle.std.specs.Prelude.{◌≡◌, ◌≤◌, ◌^◌, Err, length, IfOk};
ghost use Rattle.array_rows.specs.Arrays.{Meant};
ghost use Rattle.array_geom.specs.Geometry.{frame_lengths, volume};
ghost use Rattle.array_geom.specs.Link.{Is};
ghost use Rattle.cell_values.specs.Schemas.{IsValid};
ghost use Rattle.chunk_cells.specs.Whole.{IsArray};

use crate::assembly::assemble;
use crate::reading::whole::rows;
use array_geom::ChunkedArray;
use cell_values::{Broken, Margins, Memory, Schema, copy_numbers};

/// An array that could not be computed.
pub fn broken_array(
    schema: &Schema,
    margins: &Margins,
    broken: &Broken,
) -> Result<ChunkedArray, Memory>
    requires valid { IsValid schema.now }
    requires margins { length margins.now.items ≡ length schema.now.dimensions }
    ensures array { IfOk result (λ array. Is array (record { schema = schema.now; rows = Err broken.now })) }
    ensures margins { IfOk result (λ array. array.margins ≡ margins.now) }
{
    Ok(ChunkedArray {
        schema: schema.copy()?,
        margins: copy_numbers(margins),
        chunks: schema.dimensions.another(),
        broken: Some(broken.copy()?),
    })
}

/// The same array in chunks with these margins.
pub fn with_halo(array: &ChunkedArray, margins: &Margins) -> Result<ChunkedArray, Memory>
    requires array { IsArray array.now }
    requires margins { length margins.now.items ≡ length array.now.schema.dimensions }
    requires places { volume (frame_lengths array.now.schema.dimensions margins.now.items) ≤ 2 ^ 48 }
    ensures array { (meant : Meant) → Is array.now meant → IfOk result (λ made. Is made meant) }
    ensures margins { IfOk result (λ made. made.margins ≡ margins.now) }
{
    match &array.broken {
        Some(broken) => broken_array(&array.schema, margins, broken),
        None => assemble(&array.schema, margins, rows(array)?.as_slice()),
    }
}
