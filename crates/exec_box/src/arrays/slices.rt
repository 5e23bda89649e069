//! Arrays with dimensions held at numbers, without these.
ghost use Rattle.std.specs.Prelude.{◌≡◌, None, IfOk};
ghost use Rattle.cell_values.specs.Schemas.{IsValid};
ghost use Rattle.array_rows.specs.Arrays.{Meant};
ghost use Rattle.array_parts.specs.Cores.{HasCells, meant_by_cores};
ghost use Rattle.array_geom.specs.Geometry.{overlaps};
ghost use Rattle.array_geom.specs.Link.{Is};
ghost use Rattle.chunk_cells.specs.Whole.{IsArray};
ghost use Rattle.logical_plan.specs.PlanSchema.{slice_schema};
ghost use Rattle.exec_box.specs.Parts.{slice_meant};

use crate::arrays::schemas::sliced_schema;
use crate::arrays::slice_pieces::slice_by_pieces;
use array_geom::ChunkedArray;
use cell_values::Memory;
use logical_plan::Fixed;

/// The cells of an array where some dimensions have these numbers, without these dimensions. What the array's margins hold
/// doesn't matter.
pub fn slice_owned(array: ChunkedArray, fixed: &[Fixed]) -> Result<ChunkedArray, Memory>
    requires whole { array.broken ≡ None }
    requires cells { HasCells array }
    requires valid { IsValid (slice_schema fixed.now array.schema) }
    ensures array { IfOk result (λ slice. Is slice (slice_meant fixed.now (meant_by_cores array))) }
    ensures margins { IfOk result (λ slice. slice.margins.items ≡ overlaps (slice_schema fixed.now array.schema).dimensions) }
{
    let schema = sliced_schema(&array.schema, fixed)?;
    slice_by_pieces(&schema, &array, fixed)
}

/// The cells of an array where some dimensions have these numbers, without these dimensions.
pub fn slice(array: &ChunkedArray, fixed: &[Fixed]) -> Result<ChunkedArray, Memory>
    requires whole { array.now.broken ≡ None }
    requires array { IsArray array.now }
    requires valid { IsValid (slice_schema fixed.now array.now.schema) }
    ensures array { (meant : Meant) → Is array.now meant → IfOk result (λ slice. Is slice (slice_meant fixed.now meant)) }
    ensures margins { IfOk result (λ slice. slice.margins.items ≡ overlaps (slice_schema fixed.now array.now.schema).dimensions) }
{
    slice_owned(array.copy()?, fixed)
}
