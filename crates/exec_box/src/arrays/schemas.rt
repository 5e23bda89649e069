//! The schemas of parts and slices, which are those of their plans.
ghost use Rattle.std.specs.Prelude.{◌≡◌, IfOk};
ghost use Rattle.logical_plan.specs.PlanSchema.{subarray_schema, slice_schema};

use cell_values::{Bounds, List, Memory, Schema};
use logical_plan::Fixed;
use plan_schemas::{schema_of_part, schema_of_slice};

/// The schema of the part of an array in a box.
pub(crate) fn part_schema(schema: &Schema, area: &Bounds) -> Result<Schema, Memory>
    ensures { IfOk result (λ part. part ≡ subarray_schema area.now schema.now) }
{
    schema_of_part(schema.copy()?, area)
}

/// The schema of a slice of an array.
pub(crate) fn sliced_schema(schema: &Schema, fixed: &[Fixed]) -> Result<Schema, Memory>
    ensures { IfOk result (λ slice. slice ≡ slice_schema fixed.now schema.now) }
{
    let fixed = List::from_slice(schema.dimensions.allocator(), fixed)?;
    schema_of_slice(schema.copy()?, &fixed)
}
