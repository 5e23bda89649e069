//! Groups of rows that land, where several may land at one coordinate.
ghost use Rattle.std.specs.Prelude.{◌≡◌, ◌+◌, ◌<◌, ◌^◌, ◌≤◌, false, length, map, IfOk};
ghost use Rattle.array_rows.specs.Rows.{IsRising};
ghost use Rattle.group_rows.specs.Counts.{cells_in};
ghost use Rattle.group_rows.specs.Taken.{cells_kept};
ghost use Rattle.redimension_exec.specs.Inner.Counting.{has_counted};
ghost use Rattle.redimension_exec.specs.Inner.Grouping.{AreGroupsLanded};
ghost use Rattle.redimension_exec.specs.Inner.Places.{origin};
ghost use Rattle.redimension_exec.specs.Inner.Taking.{IsTaken};

use crate::places::{Place, first_numbers};
use agg_states::AggState;
use array_rows::is_in_box;
use cell_values::{Bounds, Broken, Coord, FaultKind, List, Memory, Row, copy_coord};
use group_rows::{Groups, groups_in, take_rows};
use logical_plan::Aggregate;
use std::alloc::Global;
use std::collections::BTreeMap;
use std::slice::from_ref;

fn broken_at(row: &Row, kind: FaultKind) -> Broken
    ensures { result ≡ record { at = row.now.at; kind = kind } }
{
    Broken {
        at: copy_coord(&row.at),
        kind,
    }
}

/// Takes a row into the states of the coordinate at which it lands, or says that it breaks the array.
fn take_next(
    groups: &mut BTreeMap<Coord, List<AggState>>,
    alloc: Global,
    aggregates: &[Aggregate],
    places: &[Place],
    bounds: &Bounds,
    row: &Row,
) -> Result<Option<Broken>, Memory>
    requires few { length places.now ≤ 6 }
    requires plain { has_counted (map origin places.now) ≡ false }
    requires room { cells_kept groups.old.entries + 1 < 2 ^ 63 }
    ensures taken { IfOk result (λ broken. IsTaken aggregates.now (map origin places.now) bounds.now row.now broken groups.old groups.new) }
    ensures cells { IfOk result (λ broken. cells_kept groups.new.entries ≤ cells_kept groups.old.entries + 1) }
{
    match first_numbers(places, row) {
        Err(kind) => Ok(Some(broken_at(row, kind))),
        Ok(None) => Ok(None),
        Ok(Some(at)) => {
            if !is_in_box(bounds, &at) {
                return Ok(Some(broken_at(row, FaultKind::OutOfBounds)));
            }
            take_rows(groups, alloc, aggregates, &at, from_ref(row))?;
            Ok(None)
        }
    }
}

/// For each coordinate at which rows land, a state of each aggregate for them; or the first row that breaks the array, and why.
pub(crate) fn groups_from(
    aggregates: &[Aggregate],
    places: &[Place],
    bounds: &Bounds,
    rows: &List<Row>,
) -> Result<Result<Groups, Broken>, Memory>
    requires few { length places.now ≤ 6 }
    requires plain { has_counted (map origin places.now) ≡ false }
    requires counted { length rows.now < 2 ^ 63 }
    requires rising { IsRising rows.now }
    ensures groups { IfOk result (AreGroupsLanded aggregates.now (map origin places.now) bounds.now rows.now) }
    ensures cells { IfOk result (λ made. IfOk made (λ groups. cells_in groups.groups ≤ length rows.now)) }
{
    let alloc = rows.allocator();
    let mut groups = BTreeMap::new(alloc);
    for row in rows.as_slice() {
        if let Some(broken) = take_next(&mut groups, alloc, aggregates, places, bounds, row)? {
            return Ok(Err(broken));
        }
    }
    let groups = groups_in(alloc, groups)?;
    Ok(Ok(groups))
}
