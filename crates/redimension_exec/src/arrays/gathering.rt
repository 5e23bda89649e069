//! Rows whose values are aggregates of the cells that land at one coordinate.
ghost use Rattle.std.specs.Prelude.{◌≡◌, ◌≤◌, ◌<◌, ◌^◌, length, map, IsTrue, IfOk};
ghost use Rattle.cell_values.specs.Schemas.{IsValid};
ghost use Rattle.array_rows.specs.Arrays.{AreRowsOf};
ghost use Rattle.array_rows.specs.Boxes.{bounds_of};
ghost use Rattle.array_parts.specs.Cores.{HaveCells, cores_of};
ghost use Rattle.logical_plan.specs.Redimension.{gathered_rows, origin_of};
ghost use Rattle.logical_plan.specs.Typing.{redimensions};
ghost use Rattle.redimension_exec.specs.Inner.Grouping.{AreRowsTold};

use crate::arrays::chunks::groups_of_cores;
use crate::arrays::ordering::aggregates_named;
use array_geom::ChunkedArray;
use cell_values::{Broken, List, Memory, Row, Schema};
use group_rows::{Groups, rows_told};
use logical_plan::Aggregate;

/// The rows that groups tell, or what broke the array.
fn told_of(
    found: Result<Result<Groups, Broken>, Memory>,
) -> Result<Result<List<Row>, Broken>, Memory>
    ensures { IfOk result (AreRowsTold found) }
{
    match found {
        Ok(Ok(groups)) => match rows_told(groups) {
            Ok(rows) => Ok(Ok(rows)),
            Err(memory) => Err(memory),
        },
        Ok(Err(broken)) => Ok(Err(broken)),
        Err(memory) => Err(memory),
    }
}

/// For each coordinate of the target at which cells of an array's cores land, a row with the aggregates that the target's attributes
/// name; or the first row that breaks the array, and why. Found chunk by chunk, or band by band where a row breaks the array.
#[tactic(auto, using(crate::proofs::BandLaws::few_dimensions))]
pub(crate) fn gathered_in_bands(
    array: &ChunkedArray,
    target: &Schema,
    aggregates: &[Aggregate],
) -> Result<Result<List<Row>, Broken>, Memory>
    requires cells { HaveCells array.now.schema array.now.margins.items array.now.chunks }
    requires counted { length (cores_of array.now) < 2 ^ 63 }
    requires valid { IsValid target.now }
    requires typed { IsTrue (redimensions array.now.schema target.now aggregates.now) }
    requires some { 1 ≤ length aggregates.now }
    ensures values { IfOk result (λ made. made ≡ gathered_rows (map (origin_of array.now.schema) target.now.dimensions)
        (bounds_of target.now.dimensions) target.now.attributes aggregates.now (cores_of array.now)) }
    ensures rows { IfOk result (λ made. IfOk made (AreRowsOf target.now)) }
{
    let ordered = aggregates_named(&target.attributes, aggregates)?;
    let chunks = array.chunks.as_slice();
    let found = groups_of_cores(
        &array.schema,
        target,
        ordered.as_slice(),
        &array.margins,
        chunks,
    );
    drop(ordered);
    told_of(found)
}
