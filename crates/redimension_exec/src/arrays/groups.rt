//! Groups of the cells that land at one coordinate.
ghost use Rattle.std.specs.Prelude.{◌≡◌, ◌≤◌, ◌<◌, ◌^◌, false, length, map, IfOk};
ghost use Rattle.array_rows.specs.Boxes.{bounds_of};
ghost use Rattle.array_rows.specs.Rows.{IsRising};
ghost use Rattle.logical_plan.specs.Redimension.{origin_of};
ghost use Rattle.group_rows.specs.Counts.{cells_in};
ghost use Rattle.redimension_exec.specs.Inner.Counting.{has_counted};
ghost use Rattle.redimension_exec.specs.Inner.Grouping.{AreGroupsLanded};

use crate::landings::groups_from;
use crate::places::places_of_dimensions;
use area_cells::bounds_of;
use cell_values::{Broken, List, Memory, Row, Schema};
use group_rows::Groups;
use logical_plan::Aggregate;

/// For each coordinate of the target, of which no dimension is synthetic, a state of each aggregate for the cells that land there;
/// or the first row that breaks the array, and why.
pub fn groups_landed(
    source: &Schema,
    target: &Schema,
    aggregates: &[Aggregate],
    rows: List<Row>,
) -> Result<Result<Groups, Broken>, Memory>
    requires few { length target.now.dimensions ≤ 6 }
    requires plain { has_counted (map (origin_of source.now) target.now.dimensions) ≡ false }
    requires counted { length rows < 2 ^ 63 }
    requires rising { IsRising rows }
    ensures groups { IfOk result (AreGroupsLanded aggregates.now (map (origin_of source.now) target.now.dimensions) (bounds_of target.now.dimensions) rows) }
    ensures cells { IfOk result (λ made. IfOk made (λ groups. cells_in groups.groups ≤ length rows)) }
{
    let dimensions = target.dimensions.as_slice();
    let places = places_of_dimensions(source, dimensions)?;
    groups_from(aggregates, places.as_slice(), &bounds_of(dimensions), &rows)
}
