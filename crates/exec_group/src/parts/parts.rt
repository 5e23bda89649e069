//! The groups of the cells of a chunk's core.
ghost use Rattle.std.specs.Prelude.{◌≡◌, ◌≤◌, ◌∷◌, [], length, IfOk};
ghost use Rattle.array_parts.specs.Cores.{HaveCells};
ghost use Rattle.group_rows.specs.Counts.{cells_in};
ghost use Rattle.group_rows.specs.Grouped.{AreGroupsOf};
ghost use Rattle.group_rows.specs.Inner.Keys.{core_of, aggregate_sets, regrid_sets};

use crate::parts::columns::{groups_of_core, part_of_columns};
use crate::parts::cores::rows_of_core;
use array_geom::Chunk;
use cell_values::{Margins, Memory, Schema};
use group_rows::{Grouping, Groups, aggregate_groups};
use logical_plan::Aggregate;

/// The groups of a chunk's core from its rows.
fn part_of_rows(
    schema: &Schema,
    margins: &Margins,
    chunk: Chunk,
    aggs: &[Aggregate],
    dims: &[u32],
) -> Result<Groups, Memory>
    requires cells { HaveCells schema.now margins.now.items (chunk ∷ []) }
    requires names { length dims.now ≤ 6 }
    ensures groups { IfOk result (λ part. AreGroupsOf aggs.now (aggregate_sets dims.now (core_of schema.now.dimensions margins.now.items chunk)) part.groups) }
    ensures cells { IfOk result (λ part. cells_in part.groups ≤ length (core_of schema.now.dimensions margins.now.items chunk)) }
{
    let rows = rows_of_core(schema, margins, chunk)?;
    aggregate_groups(&rows, aggs, dims)
}

/// The groups of the cells of a chunk's core that agree in the named dimensions. Without names all are in one group at 0.
pub fn aggregate_part(
    schema: &Schema,
    margins: &Margins,
    chunk: Chunk,
    aggs: &[Aggregate],
    dims: &[u32],
) -> Result<Groups, Memory>
    requires cells { HaveCells schema.now margins.now.items (chunk ∷ []) }
    requires names { length dims.now ≤ 6 }
    ensures groups { IfOk result (λ part. AreGroupsOf aggs.now (aggregate_sets dims.now (core_of schema.now.dimensions margins.now.items chunk)) part.groups) }
    ensures cells { IfOk result (λ part. cells_in part.groups ≤ length (core_of schema.now.dimensions margins.now.items chunk)) }
{
    let found = part_of_columns(schema, margins, &chunk, aggs, dims)?;
    match found {
        Some(groups) => {
            drop(chunk);
            Ok(groups)
        }
        None => part_of_rows(schema, margins, chunk, aggs, dims),
    }
}

/// The groups of the cells of a chunk's core by blocks, which are counted from the low bounds of the array.
pub fn regrid_part(
    schema: &Schema,
    margins: &Margins,
    chunk: Chunk,
    blocks: &[u64],
    aggs: &[Aggregate],
) -> Result<Groups, Memory>
    requires cells { HaveCells schema.now margins.now.items (chunk ∷ []) }
    ensures groups { IfOk result (λ part. AreGroupsOf aggs.now (regrid_sets schema.now.dimensions blocks.now (core_of schema.now.dimensions margins.now.items chunk)) part.groups) }
    ensures cells { IfOk result (λ part. cells_in part.groups ≤ length (core_of schema.now.dimensions margins.now.items chunk)) }
{
    let grouping = Grouping::Blocks(schema.dimensions.as_slice(), blocks);
    groups_of_core(schema, margins, &chunk, aggs, &grouping)
}
