//! Lines of cells, which are carried from chunk to chunk.
ghost use Rattle.std.specs.Prelude.{◌≡◌, ◌+◌, ◌^◌, ◌<◌, ◌≤◌, ◌∷◌, [], List as Items, length, IfOk};
ghost use Rattle.array_parts.specs.Cores.{HaveCells};
ghost use Rattle.array_parts.specs.Made.{IsPlaced};
ghost use Rattle.logical_plan.specs.declared.parts.Aggregate.{Aggregate as Wanted};
ghost use Rattle.group_rows.specs.Counts.{cells_in};
ghost use Rattle.group_rows.specs.Grouped.{AreGroupsOf, AreInOrder};
ghost use Rattle.group_rows.specs.Sets.{AreApartSets, AreKeys, Sets, both_sets, sets_by};
ghost use Rattle.group_rows.specs.Taken.{KeepsGroups, cells_kept};
ghost use Rattle.order_exec.specs.Continued.{ContinuesLines};
ghost use Rattle.order_exec.specs.Inner.ByChunk.{rows_of_core};
ghost use Rattle.order_exec.specs.Lines.{line_start, low_along};

use crate::line_starts::{Along, line_at, low_of};
use crate::running_chunks::core_of;
use crate::running_rows::running;
use agg_states::AggState;
use area_cells::chunk_of_rows;
use array_geom::Chunk;
use cell_values::{Coord, List, Margins, Memory, Row, Schema, copy_coord, copy_numbers};
use group_rows::{Group, Groups, groups_of, merge_two};
use logical_plan::Aggregate;
use std::alloc::Global;
use std::collections::BTreeMap;

/// Lines along a dimension: for each where it begins, and a state for each aggregate of its cells.
#[derive(Drop)]
pub struct Lines {
    pub lines: List<Group>,
}

/// Where the line of each row begins.
fn starts_of(along: &Along<'_>, rows: &List<Row>) -> Result<List<Coord>, Memory>
    ensures { IfOk result (λ keys. AreKeys (line_start along.now.place along.now.low) keys rows.now) }
{
    let mut keys = List::with_capacity(rows.allocator(), rows.len())?;
    for row in rows.as_slice() {
        keys.push(line_at(along, &row.at))?;
    }
    Ok(keys)
}

/// The lines of the cells of a chunk's core.
pub(crate) fn lines_of(
    along: &Along<'_>,
    schema: &Schema,
    margins: &Margins,
    chunk: Chunk,
) -> Result<Lines, Memory>
    requires cells { HaveCells schema.now margins.now.items (chunk ∷ []) }
    ensures lines { IfOk result (λ part. AreGroupsOf along.now.aggs.now
        (sets_by (line_start along.now.place along.now.low) (rows_of_core schema.now.dimensions margins.now.items chunk)) part.lines) }
    ensures cells { IfOk result (λ part. cells_in part.lines ≤ length (rows_of_core schema.now.dimensions margins.now.items chunk)) }
{
    let rows = core_of(schema, margins, chunk)?;
    if rows.len() >= 1 << 63 {
        return Err(Memory);
    }
    let keys = starts_of(along, &rows)?;
    let part = groups_of(
        rows.allocator(),
        along.aggs,
        keys.as_slice(),
        rows.as_slice(),
    )?;
    Ok(Lines { lines: part.groups })
}

/// The lines of two parts, of which none has a cell of the other.
pub fn join_lines(left: Lines, right: Lines) -> Result<Lines, Memory>
    requires room { cells_in left.lines + cells_in right.lines < 2 ^ 63 }
    ensures lines { (gs : Items Wanted) (own other : Sets) → AreGroupsOf gs own left.lines → AreGroupsOf gs other right.lines → AreApartSets own other
        → IfOk result (λ joined. AreGroupsOf gs (both_sets own other) joined.lines) }
    ensures cells { IfOk result (λ joined. cells_in joined.lines ≤ cells_in left.lines + cells_in right.lines) }
{
    let joined = merge_two(
        Groups { groups: left.lines },
        Groups {
            groups: right.lines,
        },
    )?;
    Ok(Lines {
        lines: joined.groups,
    })
}

/// The states of lines by where these begin.
fn tree_of(alloc: Global, lines: &[Group]) -> Result<BTreeMap<Coord, List<AggState>>, Memory>
    requires { AreInOrder lines.now }
    ensures states { IfOk result (λ tree. (gs : Items Wanted) (sets : Sets) → AreGroupsOf gs sets lines.now → KeepsGroups gs sets tree) }
    ensures cells { IfOk result (λ tree. cells_kept tree.entries ≤ cells_in lines.now) }
{
    let mut tree = BTreeMap::new(alloc);
    for line in lines {
        tree.insert(copy_coord(&line.at), line.states.copy()?)?;
    }
    Ok(tree)
}

/// The chunk whose core has what the cells of this one's become behind those of earlier lines. The margins are left out.
pub(crate) fn chunk_after(
    along: &Along<'_>,
    schema: &Schema,
    margins: &Margins,
    chunk: Chunk,
    before: &Lines,
) -> Result<Chunk, Memory>
    requires cells { HaveCells schema.now margins.now.items (chunk ∷ []) }
    requires order { AreInOrder before.now.lines }
    requires room { cells_in before.now.lines + length chunk.cells < 2 ^ 63 }
    ensures number { IfOk result (λ made. made.at ≡ chunk.at) }
    ensures placed { IfOk result (IsPlaced schema.now.dimensions margins.now.items) }
    ensures rows { IfOk result (ContinuesLines along.now.place along.now.low along.now.aggs.now before.now.lines schema.now.dimensions margins.now.items chunk) }
{
    let at = copy_numbers(&chunk.at);
    let rows = core_of(schema, margins, chunk)?;
    let alloc = rows.allocator();
    let mut tree = tree_of(alloc, before.lines.as_slice())?;
    let made = running(&mut tree, alloc, along, rows.as_slice())?;
    chunk_of_rows(schema, margins, &at, made)
}

/// The lines along a dimension of the cells of a chunk's core.
pub fn line_part(
    schema: &Schema,
    margins: &Margins,
    chunk: &Chunk,
    aggs: &[Aggregate],
    dim: u32,
) -> Result<Lines, Memory>
    requires cells { HaveCells schema.now margins.now.items (chunk.now ∷ []) }
    ensures lines { IfOk result (λ part. AreGroupsOf aggs.now
        (sets_by (line_start dim (low_along schema.now.dimensions dim)) (rows_of_core schema.now.dimensions margins.now.items chunk.now)) part.lines) }
    ensures cells { IfOk result (λ part. cells_in part.lines ≤ length (rows_of_core schema.now.dimensions margins.now.items chunk.now)) }
{
    let place = dim as usize;
    let along = Along {
        place,
        low: low_of(schema.dimensions.as_slice(), place),
        aggs,
    };
    lines_of(&along, schema, margins, chunk.copy()?)
}

/// The chunk whose core has for each cell of this one's the aggregates of the cells on its line up to it, those before the chunk
/// among them, for which earlier lines stand. A cell in doubt stays one; the margins are left out.
pub fn cumulate_chunk(
    schema: &Schema,
    margins: &Margins,
    chunk: &Chunk,
    aggs: &[Aggregate],
    dim: u32,
    before: &Lines,
) -> Result<Chunk, Memory>
    requires cells { HaveCells schema.now margins.now.items (chunk.now ∷ []) }
    requires order { AreInOrder before.now.lines }
    requires room { cells_in before.now.lines + length chunk.now.cells < 2 ^ 63 }
    ensures number { IfOk result (λ made. made.at ≡ chunk.now.at) }
    ensures placed { IfOk result (IsPlaced schema.now.dimensions margins.now.items) }
    ensures rows { IfOk result (ContinuesLines dim (low_along schema.now.dimensions dim) aggs.now before.now.lines schema.now.dimensions margins.now.items chunk.now) }
{
    let place = dim as usize;
    let along = Along {
        place,
        low: low_of(schema.dimensions.as_slice(), place),
        aggs,
    };
    chunk_after(&along, schema, margins, chunk.copy()?, before)
}
