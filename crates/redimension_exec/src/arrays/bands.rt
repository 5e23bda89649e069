//! Groups of the cells that land at one coordinate, found band by band, so that the rows of one band are there at a time.
ghost use Rattle.std.specs.Prelude.{◌≡◌, ◌≤◌, false, length, map, IfOk};
ghost use Rattle.array_rows.specs.Boxes.{bounds_of};
ghost use Rattle.array_geom.specs.Link.{core_rows};
ghost use Rattle.logical_plan.specs.Redimension.{origin_of};
ghost use Rattle.group_rows.specs.Counts.{cells_in};
ghost use Rattle.redimension_exec.specs.Inner.Bands.{AreBands};
ghost use Rattle.redimension_exec.specs.Inner.Counting.{has_counted};
ghost use Rattle.redimension_exec.specs.Inner.Grouping.{AreGroupsLanded};

use crate::arrays::groups::groups_landed;
use area_cells::{half_of_bands, rows_of_chunks};
use array_geom::Chunk;
use cell_values::{Broken, Margins, Memory, Schema};
use group_rows::{Groups, merge_two};
use logical_plan::Aggregate;

/// The groups of what lands of the cores of chunks, from all their rows.
pub(crate) fn groups_in_band(
    source: &Schema,
    target: &Schema,
    aggregates: &[Aggregate],
    margins: &Margins,
    chunks: &[Chunk],
) -> Result<Result<Groups, Broken>, Memory>
    requires few { length target.now.dimensions ≤ 6 }
    requires plain { has_counted (map (origin_of source.now) target.now.dimensions) ≡ false }
    requires bands { AreBands source.now margins.now.items chunks.now }
    ensures groups { IfOk result (AreGroupsLanded aggregates.now (map (origin_of source.now) target.now.dimensions)
        (bounds_of target.now.dimensions) (core_rows source.now.dimensions margins.now.items chunks.now)) }
    ensures cells { IfOk result (λ made. IfOk made (λ groups. cells_in groups.groups ≤ length (core_rows source.now.dimensions margins.now.items chunks.now))) }
{
    let rows = rows_of_chunks(source, margins, chunks)?;
    groups_landed(source, target, aggregates, rows)
}

/// The groups of what lands of the cores of chunks, half by half until a band is left, so that they are put together in balance; or
/// the first row that breaks the array, and why.
pub(crate) fn groups_in_bands(
    source: &Schema,
    target: &Schema,
    aggregates: &[Aggregate],
    margins: &Margins,
    chunks: &[Chunk],
) -> Result<Result<Groups, Broken>, Memory>
    requires few { length target.now.dimensions ≤ 6 }
    requires plain { has_counted (map (origin_of source.now) target.now.dimensions) ≡ false }
    requires bands { AreBands source.now margins.now.items chunks.now }
    ensures groups { IfOk result (AreGroupsLanded aggregates.now (map (origin_of source.now) target.now.dimensions)
        (bounds_of target.now.dimensions) (core_rows source.now.dimensions margins.now.items chunks.now)) }
    ensures cells { IfOk result (λ made. IfOk made (λ groups. cells_in groups.groups ≤ length (core_rows source.now.dimensions margins.now.items chunks.now))) }
{
    let half = half_of_bands(source, chunks);
    if half == chunks.len() {
        return groups_in_band(source, target, aggregates, margins, chunks);
    }
    let (front, back) = chunks.split_at(half);
    match groups_in_bands(source, target, aggregates, margins, front)? {
        Err(broken) => Ok(Err(broken)),
        Ok(left) => match groups_in_bands(source, target, aggregates, margins, back)? {
            Err(broken) => Ok(Err(broken)),
            Ok(right) => {
                let groups = merge_two(left, right)?;
                Ok(Ok(groups))
            }
        },
    }
}
