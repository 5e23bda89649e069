//! The groups of the cells of rows.
ghost use Rattle.std.specs.Prelude.{◌≡◌, ◌≤◌, ◌<◌, ◌^◌, length, IfOk};
ghost use Rattle.std.specs.List.{All};
ghost use Rattle.array_rows.specs.Rows.{IsRising};
ghost use Rattle.group_rows.specs.Counts.{cells_in};
ghost use Rattle.group_rows.specs.Grouped.{AreGroupsOf};
ghost use Rattle.group_rows.specs.Inner.Keys.{aggregate_sets};
ghost use Rattle.group_rows.specs.Inner.Places.{HasKey, key_of};
ghost use Rattle.group_rows.specs.Sets.{sets_by};

use crate::grouping::keys::{Grouping, keys_of};
use crate::grouping::named::zero;
use crate::rows::{Groups, groups_of, one_group};
use cell_values::{List, Memory, Row};
use logical_plan::Aggregate;

/// The groups of cells by how they are grouped.
fn grouped(rows: &List<Row>, aggs: &[Aggregate], grouping: &Grouping<'_>) -> Result<Groups, Memory>
    requires few { length rows.now < 2 ^ 63 }
    requires rising { IsRising rows.now }
    requires keyed { All (λ row. HasKey grouping.now row.at.items) rows.now }
    ensures groups { IfOk result (λ part. AreGroupsOf aggs.now (sets_by (key_of grouping.now) rows.now) part.groups) }
    ensures cells { IfOk result (λ part. cells_in part.groups ≤ length rows.now) }
{
    let keys = keys_of(grouping, rows)?;
    groups_of(rows.allocator(), aggs, keys.as_slice(), rows.as_slice())
}

/// The groups of cells that agree in the named dimensions. Without names all are in one group at 0.
pub fn aggregate_groups(
    rows: &List<Row>,
    aggs: &[Aggregate],
    dims: &[u32],
) -> Result<Groups, Memory>
    requires few { length rows.now < 2 ^ 63 }
    requires rising { IsRising rows.now }
    requires names { length dims.now ≤ 6 }
    ensures groups { IfOk result (λ part. AreGroupsOf aggs.now (aggregate_sets dims.now rows.now) part.groups) }
    ensures cells { IfOk result (λ part. cells_in part.groups ≤ length rows.now) }
{
    match dims {
        [] => one_group(rows.allocator(), aggs, &zero(), rows.as_slice()),
        [_, ..] => grouped(rows, aggs, &Grouping::Named(dims)),
    }
}
