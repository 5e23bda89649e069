//! Groups of the cells that land at one coordinate, found chunk by chunk, so that the rows of one chunk are there at a time.
ghost use Rattle.std.specs.Prelude.{◌≡◌, ◌≤◌, Ok as Good, false, length, map, IfOk, IfSome};
ghost use Rattle.array_rows.specs.Boxes.{bounds_of};
ghost use Rattle.array_geom.specs.Link.{core_rows};
ghost use Rattle.logical_plan.specs.Redimension.{origin_of};
ghost use Rattle.group_rows.specs.Counts.{cells_in};
ghost use Rattle.redimension_exec.specs.Inner.Bands.{AreBands};
ghost use Rattle.redimension_exec.specs.Inner.Counting.{has_counted};
ghost use Rattle.redimension_exec.specs.Inner.Grouping.{AreGroupsLanded};

use crate::arrays::bands::{groups_in_band, groups_in_bands};
use crate::dense::groups_by_places;
use array_geom::Chunk;
use cell_values::{Broken, Margins, Memory, Schema};
use group_rows::{Groups, merge_two};
use logical_plan::Aggregate;

/// The groups of what lands of the cores of chunks, from all their rows; none where a row breaks the array.
fn groups_in_chunk(
    source: &Schema,
    target: &Schema,
    aggregates: &[Aggregate],
    margins: &Margins,
    chunks: &[Chunk],
) -> Result<Option<Groups>, Memory>
    requires few { length target.now.dimensions ≤ 6 }
    requires plain { has_counted (map (origin_of source.now) target.now.dimensions) ≡ false }
    requires bands { AreBands source.now margins.now.items chunks.now }
    ensures groups { IfOk result (λ found. IfSome found (λ groups. AreGroupsLanded aggregates.now (map (origin_of source.now) target.now.dimensions)
        (bounds_of target.now.dimensions) (core_rows source.now.dimensions margins.now.items chunks.now) (Good groups))) }
    ensures cells { IfOk result (λ found. IfSome found (λ groups. cells_in groups.groups ≤ length (core_rows source.now.dimensions margins.now.items chunks.now))) }
{
    match groups_in_band(source, target, aggregates, margins, chunks)? {
        Err(_) => Ok(None),
        Ok(groups) => Ok(Some(groups)),
    }
}

/// The same by the places of a grid, where there is one chunk and that is possible.
fn groups_in_one(
    source: &Schema,
    target: &Schema,
    aggregates: &[Aggregate],
    margins: &Margins,
    chunks: &[Chunk],
) -> Result<Option<Groups>, Memory>
    requires few { length target.now.dimensions ≤ 6 }
    requires plain { has_counted (map (origin_of source.now) target.now.dimensions) ≡ false }
    requires bands { AreBands source.now margins.now.items chunks.now }
    ensures groups { IfOk result (λ found. IfSome found (λ groups. AreGroupsLanded aggregates.now (map (origin_of source.now) target.now.dimensions)
        (bounds_of target.now.dimensions) (core_rows source.now.dimensions margins.now.items chunks.now) (Good groups))) }
    ensures cells { IfOk result (λ found. IfSome found (λ groups. cells_in groups.groups ≤ length (core_rows source.now.dimensions margins.now.items chunks.now))) }
{
    if chunks.len() == 1 {
        let found = groups_by_places(source, target, aggregates, margins, &chunks[0])?;
        if let Some(groups) = found {
            return Ok(Some(groups));
        }
    }
    groups_in_chunk(source, target, aggregates, margins, chunks)
}

/// The same, half by half until a chunk is left.
fn groups_in_chunks(
    source: &Schema,
    target: &Schema,
    aggregates: &[Aggregate],
    margins: &Margins,
    chunks: &[Chunk],
) -> Result<Option<Groups>, Memory>
    requires few { length target.now.dimensions ≤ 6 }
    requires plain { has_counted (map (origin_of source.now) target.now.dimensions) ≡ false }
    requires bands { AreBands source.now margins.now.items chunks.now }
    ensures groups { IfOk result (λ found. IfSome found (λ groups. AreGroupsLanded aggregates.now (map (origin_of source.now) target.now.dimensions)
        (bounds_of target.now.dimensions) (core_rows source.now.dimensions margins.now.items chunks.now) (Good groups))) }
    ensures cells { IfOk result (λ found. IfSome found (λ groups. cells_in groups.groups ≤ length (core_rows source.now.dimensions margins.now.items chunks.now))) }
{
    let half = chunks.len() / 2;
    if half == 0 {
        return groups_in_one(source, target, aggregates, margins, chunks);
    }
    let (front, back) = chunks.split_at(half);
    match groups_in_chunks(source, target, aggregates, margins, front)? {
        None => Ok(None),
        Some(left) => match groups_in_chunks(source, target, aggregates, margins, back)? {
            None => Ok(None),
            Some(right) => {
                let groups = merge_two(left, right)?;
                Ok(Some(groups))
            }
        },
    }
}

/// The groups of what lands of the cores of chunks, or the first row that breaks the array, and why, which the bands tell.
pub(crate) fn groups_of_cores(
    source: &Schema,
    target: &Schema,
    aggregates: &[Aggregate],
    margins: &Margins,
    chunks: &[Chunk],
) -> Result<Result<Groups, Broken>, Memory>
    requires few { length target.now.dimensions ≤ 6 }
    requires plain { has_counted (map (origin_of source.now) target.now.dimensions) ≡ false }
    requires bands { AreBands source.now margins.now.items chunks.now }
    ensures groups { IfOk result (AreGroupsLanded aggregates.now (map (origin_of source.now) target.now.dimensions)
        (bounds_of target.now.dimensions) (core_rows source.now.dimensions margins.now.items chunks.now)) }
    ensures cells { IfOk result (λ made. IfOk made (λ groups. cells_in groups.groups ≤ length (core_rows source.now.dimensions margins.now.items chunks.now))) }
{
    match groups_in_chunks(source, target, aggregates, margins, chunks)? {
        Some(groups) => Ok(Ok(groups)),
        None => groups_in_bands(source, target, aggregates, margins, chunks),
    }
}
