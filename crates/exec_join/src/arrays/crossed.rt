//! The cells of two arrays side by side, where their coordinates agree in some dimensions.
ghost use Rattle.std.specs.Prelude.{◌≡◌, None, IfOk, IsTrue};
ghost use Rattle.cell_values.specs.Schemas.{IsValid};
ghost use Rattle.array_parts.specs.Cores.{HasCells, meant_by_cores};
ghost use Rattle.array_geom.specs.Geometry.{overlaps};
ghost use Rattle.array_geom.specs.Link.{Is};
ghost use Rattle.logical_plan.specs.PlanSchema.{cross_schema};
ghost use Rattle.logical_plan.specs.Typing.{pairs_dimensions};
ghost use Rattle.exec_join.specs.Meant.{cross_meant};

use crate::arrays::cross_pieces::cross_by_pieces;
use array_geom::ChunkedArray;
use cell_values::{Memory, Schema};
use logical_plan::Pair;

/// The cells of two arrays side by side for each two whose coordinates agree in the paired dimensions, in chunks of this schema, which
/// is that of their cross join. What the margins of the two hold doesn't matter. Takes time for a sort of the right cells, a search for
/// each left cell and the result.
pub fn cross_join(
    left: ChunkedArray,
    right: ChunkedArray,
    pairs: &[Pair],
    schema: &Schema,
) -> Result<ChunkedArray, Memory>
    requires left_whole { left.broken ≡ None }
    requires right_whole { right.broken ≡ None }
    requires left_cells { HasCells left }
    requires right_cells { HasCells right }
    requires schema { schema.now ≡ cross_schema pairs.now left.schema right.schema }
    requires valid { IsValid schema.now }
    requires pairs { IsTrue (pairs_dimensions pairs.now left.schema right.schema) }
    ensures array { IfOk result (λ made. Is made (cross_meant schema.now pairs.now (meant_by_cores left) (meant_by_cores right))) }
    ensures margins { IfOk result (λ made. made.margins.items ≡ overlaps schema.now.dimensions) }
{
    cross_by_pieces(&left, &right, pairs, schema)
}
