//! Arrays cut to a box that then begins at 0.
ghost use Rattle.std.specs.Prelude.{◌≡◌, None, IfOk};
ghost use Rattle.cell_values.specs.Schemas.{IsValid};
ghost use Rattle.array_rows.specs.Arrays.{Meant};
ghost use Rattle.array_parts.specs.Cores.{HasCells, meant_by_cores};
ghost use Rattle.array_geom.specs.Geometry.{overlaps};
ghost use Rattle.array_geom.specs.Link.{Is};
ghost use Rattle.chunk_cells.specs.Whole.{IsArray};
ghost use Rattle.logical_plan.specs.PlanSchema.{subarray_schema};
ghost use Rattle.exec_box.specs.Parts.{part_meant};

use crate::arrays::part_pieces::part_by_pieces;
use crate::arrays::schemas::part_schema;
use array_geom::ChunkedArray;
use cell_values::{Bounds, Memory};

/// The cells of an array in a box, moved so that the box begins at 0 in each dimension. What the array's margins hold doesn't
/// matter.
pub fn subarray_owned(array: ChunkedArray, area: &Bounds) -> Result<ChunkedArray, Memory>
    requires whole { array.broken ≡ None }
    requires cells { HasCells array }
    requires valid { IsValid (subarray_schema area.now array.schema) }
    ensures array { IfOk result (λ part. Is part (part_meant area.now (meant_by_cores array))) }
    ensures margins { IfOk result (λ part. part.margins.items ≡ overlaps (subarray_schema area.now array.schema).dimensions) }
{
    let schema = part_schema(&array.schema, area)?;
    part_by_pieces(&schema, &array, area)
}

/// The cells of an array in a box, moved so that the box begins at 0 in each dimension.
pub fn subarray(array: &ChunkedArray, area: &Bounds) -> Result<ChunkedArray, Memory>
    requires whole { array.now.broken ≡ None }
    requires array { IsArray array.now }
    requires valid { IsValid (subarray_schema area.now array.now.schema) }
    ensures array { (meant : Meant) → Is array.now meant → IfOk result (λ part. Is part (part_meant area.now meant)) }
    ensures margins { IfOk result (λ part. part.margins.items ≡ overlaps (subarray_schema area.now array.now.schema).dimensions) }
{
    subarray_owned(array.copy()?, area)
}
