//! Chunks one after the other, whose cells are taken into the states of lines.
ghost use Rattle.std.specs.Prelude.{◌≡◌, ◌+◌, ◌^◌, ◌<◌, ◌≤◌, ◌++◌, ◌∷◌, [], List as Items, IsTrue, IfOk, OnOk};
ghost use Rattle.std.specs.List.{AllByRecursion};
ghost use Rattle.cell_values.specs.declared.datum.Row.{Row as Placed};
ghost use Rattle.array_geom.specs.Link.{IsPart, chunk_rows, core_rows, numbers};
ghost use Rattle.array_parts.specs.Cores.{HaveCells};
ghost use Rattle.array_parts.specs.Placed.{HasPlaces};
ghost use Rattle.chunk_cells.specs.Frames.{HasFrames};
ghost use Rattle.logical_plan.specs.Ordered.{cumulate_rows};
ghost use Rattle.logical_plan.specs.Typing.{are_aggregates_of};
ghost use Rattle.group_rows.specs.Sets.{sets_by};
ghost use Rattle.group_rows.specs.Taken.{KeepsGroups, cells_kept};
ghost use Rattle.order_exec.specs.Inner.ByChunk.{rows_of_core};
ghost use Rattle.area_cells.specs.Margins.{no_margins};
ghost use Rattle.order_exec.specs.Inner.Running.{running};
ghost use Rattle.order_exec.specs.Lines.{CanAggregate, LinesRise, line_start};

use crate::line_starts::Along;
use crate::running_rows::running;
use agg_states::AggState;
use area_cells::{chunk_of_rows, into_core_rows};
use array_geom::{Chunk, ChunkedArray};
use cell_values::{Coord, List, Margins, Memory, Row, Schema, copy_numbers};
use std::alloc::Global;
use std::collections::BTreeMap;

/// The rows of a chunk's core.
pub(crate) fn core_of(schema: &Schema, margins: &Margins, chunk: Chunk) -> Result<List<Row>, Memory>
    requires { HaveCells schema.now margins.now.items (chunk ∷ []) }
    ensures { IfOk result (λ rows. rows ≡ rows_of_core schema.now.dimensions margins.now.items chunk) }
{
    let mut chunks = schema.dimensions.another();
    chunks.push(chunk)?;
    into_core_rows(ChunkedArray {
        schema: schema.copy()?,
        margins: copy_numbers(margins),
        chunks,
        broken: None,
    })
}

/// So many cells more. More than can be counted are as good as no memory.
fn counted(taken: u64, more: usize) -> Result<u64, Memory>
    ensures sum { IfOk result (λ all. all ≡ taken + more) }
    ensures few { IfOk result (λ all. all < 2 ^ 63) }
{
    match taken.checked_add(more as u64) {
        Some(all) if all < 1 << 63 => Ok(all),
        _ => Err(Memory),
    }
}

/// The states of lines, and for how many cells they stand at most.
#[derive(Drop)]
pub(crate) struct Taken {
    pub lines: BTreeMap<Coord, List<AggState>>,
    pub cells: u64,
}

/// The chunk of a target, without margins, whose cells are what those of a chunk's core become.
pub(crate) fn part_of(
    taken: &mut Taken,
    alloc: Global,
    along: &Along<'_>,
    schema: &Schema,
    margins: &Margins,
    target: &Schema,
    none: &Margins,
    chunk: Chunk,
) -> Result<Chunk, Memory>
    requires cells { HaveCells schema.now margins.now.items (chunk ∷ []) }
    requires same { target.now.dimensions ≡ schema.now.dimensions }
    requires none { none.now.items ≡ no_margins target.now.dimensions }
    requires frames { HasFrames target.now none.now.items }
    requires counted { cells_kept taken.old.lines.entries ≤ taken.old.cells }
    ensures number { IfOk result (λ made. made.at ≡ chunk.at) }
    ensures places { IfOk result (HasPlaces target.now none.now.items) }
    ensures rows { IfOk result (λ made. (earlier : Items Placed) → KeepsGroups along.now.aggs.now (sets_by (line_start along.now.place along.now.low) earlier) taken.old.lines
        → LinesRise (line_start along.now.place along.now.low) (earlier ++ rows_of_core schema.now.dimensions margins.now.items chunk)
        → CanAggregate along.now.aggs.now (earlier ++ rows_of_core schema.now.dimensions margins.now.items chunk)
        → chunk_rows target.now.dimensions none.now.items made ≡ running (line_start along.now.place along.now.low) along.now.aggs.now earlier (rows_of_core schema.now.dimensions margins.now.items chunk)) }
    ensures states { OnOk result ((earlier : Items Placed) → KeepsGroups along.now.aggs.now (sets_by (line_start along.now.place along.now.low) earlier) taken.old.lines
        → LinesRise (line_start along.now.place along.now.low) (earlier ++ rows_of_core schema.now.dimensions margins.now.items chunk)
        → KeepsGroups along.now.aggs.now (sets_by (line_start along.now.place along.now.low) (earlier ++ rows_of_core schema.now.dimensions margins.now.items chunk)) taken.new.lines) }
    ensures counted { OnOk result (cells_kept taken.new.lines.entries ≤ taken.new.cells) }
{
    let at = copy_numbers(&chunk.at);
    let rows = core_of(schema, margins, chunk)?;
    taken.cells = counted(taken.cells, rows.len())?;
    let made = running(&mut taken.lines, alloc, along, rows.as_slice())?;
    chunk_of_rows(target, none, &at, made)
}

/// The chunks of a target, without margins, whose cells are the aggregates along lines of the cells of all cores.
pub(crate) fn parts_by_chunk(
    along: &Along<'_>,
    schema: &Schema,
    margins: &Margins,
    target: &Schema,
    none: &Margins,
    chunks: List<Chunk>,
) -> Result<List<Chunk>, Memory>
    requires cells { HaveCells schema.now margins.now.items chunks }
    requires typed { IsTrue (are_aggregates_of schema.now.attributes along.now.aggs.now) }
    requires same { target.now.dimensions ≡ schema.now.dimensions }
    requires none { none.now.items ≡ no_margins target.now.dimensions }
    requires frames { HasFrames target.now none.now.items }
    ensures numbers { IfOk result (λ parts. numbers parts ≡ numbers chunks) }
    ensures places { IfOk result (AllByRecursion (HasPlaces target.now none.now.items)) }
    ensures parts { IfOk result (AllByRecursion (IsPart target.now.dimensions none.now.items
        (cumulate_rows along.now.place along.now.aggs.now (core_rows schema.now.dimensions margins.now.items chunks)))) }
{
    let alloc = chunks.allocator();
    let mut taken = Taken {
        lines: BTreeMap::new(alloc),
        cells: 0,
    };
    let mut parts = List::with_capacity(alloc, chunks.len())?;
    for chunk in chunks.into_vec() {
        let part = part_of(
            &mut taken, alloc, along, schema, margins, target, none, chunk,
        )?;
        parts.push(part)?;
    }
    Ok(parts)
}
