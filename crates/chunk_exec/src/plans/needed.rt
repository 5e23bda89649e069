//! The boxes of its leaves that a plan needs.
ghost use Rattle.std.specs.Prelude.{◌≡◌, IfOk};
ghost use Rattle.cell_values.specs.Schemas.{IsValid};
ghost use Rattle.array_rows.specs.Boxes.{bounds_of};
ghost use Rattle.logical_plan.specs.Typing.{IsTyped};
ghost use Rattle.plan_needs.specs.Wanted.{whole_need};

use area_cells::bounds_of;
use cell_values::{Bounds, List, Memory, Schema};
use logical_plan::Plan;
use plan_needs::need;
use plan_schemas::schema_of;
use std::alloc::Global;

/// All places of an array.
#[tactic(auto, using(array_geom::proofs::MarginLaws::few_dimensions))]
fn bounds(schema: &Schema) -> Bounds
    requires { IsValid schema.now }
    ensures { result ≡ bounds_of schema.now.dimensions }
{
    bounds_of(schema.dimensions.as_slice())
}

/// For each leaf of a typed plan, from left to right, the box of it that the plan needs for all its result.
#[tactic(auto, using(logical_plan::proofs::SchemaLaws::typed_valid))]
pub(crate) fn boxes_of(alloc: Global, plan: &Plan) -> Result<List<Bounds>, Memory>
    requires { IsTyped plan.now }
    ensures { IfOk result (λ boxes. boxes ≡ whole_need plan.now) }
{
    let schema = schema_of(alloc, plan)?;
    need(alloc, plan, &bounds(&schema))
}
