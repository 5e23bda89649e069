//! Groups as an array.
ghost use Rattle.std.specs.Prelude.{◌≡◌, ◌^◌, ◌<◌, IfOk};
ghost use Rattle.cell_values.specs.Schemas.{IsValid};
ghost use Rattle.array_geom.specs.Geometry.{overlaps};
ghost use Rattle.group_rows.specs.Counts.{cells_in};
ghost use Rattle.group_rows.specs.Inner.Merging.{CanBeTold, HoldsSets};

use array_geom::{ChunkedArray, margins_of};
use cell_values::{Memory, Schema};
use chunk_cells::assemble;
use group_rows::{Groups, rows_told};

/// The array of the target with a cell for each group, whose values are the aggregates of the group's cells.
#[tactic(auto, using(array_geom::proofs::MarginLaws::overlap_each, array_geom::proofs::MarginLaws::overlap_places))]
pub fn told_array(groups: Groups, target: &Schema) -> Result<ChunkedArray, Memory>
    requires valid { IsValid target.now }
    requires room { cells_in groups.groups < 2 ^ 63 }
    requires sets { CanBeTold target.now groups.groups }
    ensures array { (can : CanBeTold target.now groups.groups) → IfOk result (HoldsSets target.now can.gs can.sets) }
    ensures margins { IfOk result (λ array. array.margins.items ≡ overlaps target.now.dimensions) }
{
    let rows = rows_told(groups)?;
    let margins = margins_of(target);
    assemble(target, &margins, rows.as_slice())
}
