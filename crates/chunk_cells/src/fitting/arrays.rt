//! An array in the chunks of another schema.
ghost use Rattle.std.specs.Prelude.{◌≡◌, map, IfOk};
ghost use Rattle.cell_values.specs.Schemas.{IsValid};
ghost use Rattle.array_rows.specs.Arrays.{Meant};
ghost use Rattle.array_rows.specs.Boxes.{bounds_of};
ghost use Rattle.array_geom.specs.Geometry.{overlaps};
ghost use Rattle.array_geom.specs.Link.{Is};
ghost use Rattle.chunk_cells.specs.Whole.{IsArray};
ghost use Rattle.chunk_cells.specs.Fitted.{fitted};

use crate::fitting::values::fit_rows;
use crate::reading::{assemble, broken_array, rows};
use array_geom::{ChunkedArray, margins_of};
use cell_values::{Memory, Schema};

/// The same array with the schema, in its chunks and with its overlaps. A null in an attribute that is to have none becomes a fault.
pub fn fit(array: &ChunkedArray, schema: &Schema) -> Result<ChunkedArray, Memory>
    requires array { IsArray array.now }
    requires valid { IsValid schema.now }
    requires bounds { bounds_of schema.now.dimensions ≡ bounds_of array.now.schema.dimensions }
    requires kinds { map (λ a. a.kind) schema.now.attributes ≡ map (λ a. a.kind) array.now.schema.attributes }
    ensures array { (meant : Meant) → Is array.now meant → IfOk result (λ made. Is made (fitted schema.now meant)) }
    ensures margins { IfOk result (λ made. made.margins.items ≡ overlaps schema.now.dimensions) }
{
    let margins = margins_of(schema);
    match &array.broken {
        Some(broken) => broken_array(schema, &margins, broken),
        None => {
            let rows = rows(array)?;
            let fitted = fit_rows(schema.attributes.as_slice(), rows)?;
            assemble(schema, &margins, fitted.as_slice())
        }
    }
}
