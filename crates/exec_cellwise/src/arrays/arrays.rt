//! Whole arrays through the operators.
ghost use Rattle.std.specs.Prelude.{◌≡◌, None, IfOk};
ghost use Rattle.cell_values.specs.Schemas.{IsValid};
ghost use Rattle.array_parts.specs.Cores.{HasCells};
ghost use Rattle.exec_box.specs.Made.{IsMadeOf};
ghost use Rattle.logical_plan.specs.CellOps.{filter_rows, apply_rows, project_rows};

use crate::arrays::operators::{Apply, Filter, Project};
use afl_outside::Gate;
use array_geom::ChunkedArray;
use cell_values::{Memory, Schema};
use chunk_workers::Crew;
use exec_box::over_array;
use expr_nulls::TypedExpr;
use logical_plan::Applied;
use std::thread::Threads;

/// The cells where the test is true, and those that it leaves in doubt.
pub fn filter<R: Threads + Sync, G: Gate>(
    crew: &mut Crew<'_, R, G>,
    array: ChunkedArray,
    schema: Schema,
    test: &TypedExpr,
) -> Result<ChunkedArray, Memory>
    requires whole { array.broken ≡ None }
    requires cells { HasCells array }
    requires valid { IsValid schema }
    requires dimensions { schema.dimensions ≡ array.schema.dimensions }
    ensures { IfOk result (IsMadeOf (filter_rows test.now) schema array) }
{
    over_array(crew, array, schema, &Filter { test })
}

/// The cells with further values.
pub fn apply<R: Threads + Sync, G: Gate>(
    crew: &mut Crew<'_, R, G>,
    array: ChunkedArray,
    schema: Schema,
    values: &[Applied],
) -> Result<ChunkedArray, Memory>
    requires whole { array.broken ≡ None }
    requires cells { HasCells array }
    requires valid { IsValid schema }
    requires dimensions { schema.dimensions ≡ array.schema.dimensions }
    ensures { IfOk result (IsMadeOf (apply_rows values.now) schema array) }
{
    over_array(crew, array, schema, &Apply { values })
}

/// The values at these places.
pub fn project<R: Threads + Sync, G: Gate>(
    crew: &mut Crew<'_, R, G>,
    array: ChunkedArray,
    schema: Schema,
    places: &[u32],
) -> Result<ChunkedArray, Memory>
    requires whole { array.broken ≡ None }
    requires cells { HasCells array }
    requires valid { IsValid schema }
    requires dimensions { schema.dimensions ≡ array.schema.dimensions }
    ensures { IfOk result (IsMadeOf (project_rows places.now) schema array) }
{
    over_array(crew, array, schema, &Project { places })
}
