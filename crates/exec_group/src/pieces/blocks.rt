//! The aggregates of an array's blocks, chunk by chunk.
ghost use Rattle.std.specs.Prelude.{◌≡◌, ◌≤◌, ◌<◌, ◌^◌, ◌∷◌, [], None, IsTrue, IfOk};
ghost use Rattle.std.specs.List.{AllZip};
ghost use Rattle.cell_values.specs.Schemas.{IsValid};
ghost use Rattle.array_parts.specs.Cores.{HasCells, HaveCells, meant_by_cores};
ghost use Rattle.array_geom.specs.Geometry.{overlaps};
ghost use Rattle.array_geom.specs.Link.{Is, core_rows};
ghost use Rattle.exec_group.specs.Meant.{regrid_meant};
ghost use Rattle.group_rows.specs.Inner.Keys.{regrid_sets};
ghost use Rattle.group_rows.specs.Counts.{cells_in};
ghost use Rattle.group_rows.specs.Grouped.{AreGroupsOf};
ghost use Rattle.logical_plan.specs.PlanSchema.{regrid_schema};
ghost use Rattle.logical_plan.specs.Typing.{are_aggregates_of};
ghost use Rattle.exec_group.specs.Inner.Parts.{IsBlockPartOf};

use crate::parts::{regrid_part, told_array};
use crate::pieces::parts::are_few;
use afl_outside::Gate;
use array_geom::{Chunk, ChunkedArray};
use cell_values::{List, Margins, Memory, Schema};
use chunk_workers::{Crew, Work, over_pieces};
use group_rows::{Groups, merge_all};
use logical_plan::Aggregate;
use std::thread::Threads;

/// Aggregates by blocks, and the schema and the margins of the array of whose chunks they are to be.
#[derive(Drop)]
struct ByBlocks<'a> {
    schema: &'a Schema,
    margins: &'a Margins,
    blocks: &'a [u64],
    aggs: &'a [Aggregate],
}

impl Work<Chunk, Groups> for ByBlocks<'_> {
    ghost accepts = { λ by chunk. HaveCells by.schema.now by.margins.now.items (chunk ∷ []) };

    ghost gives = { λ by chunk part. IsBlockPartOf by.aggs.now by.blocks.now by.schema.now.dimensions by.margins.now.items chunk part };

    fn size(&self, chunk: &Chunk) -> usize {
        chunk.cells.len()
    }

    fn work(&self, chunk: Chunk) -> Result<Groups, Memory> {
        regrid_part(self.schema, self.margins, chunk, self.blocks, self.aggs)
    }
}

/// The groups of each chunk's core by blocks.
fn each_block_part<R: Threads + Sync, G: Gate>(
    crew: &mut Crew<'_, R, G>,
    schema: &Schema,
    margins: &Margins,
    chunks: List<Chunk>,
    blocks: &[u64],
    aggs: &[Aggregate],
) -> Result<List<Groups>, Memory>
    requires cells { HaveCells schema.now margins.now.items chunks }
    ensures { IfOk result (AllZip (IsBlockPartOf aggs.now blocks.now schema.now.dimensions margins.now.items) chunks) }
{
    let by = ByBlocks {
        schema,
        margins,
        blocks,
        aggs,
    };
    over_pieces(crew, chunks, &by)
}

/// The groups of all chunks' cores by blocks.
fn blocks_by_parts<R: Threads + Sync, G: Gate>(
    crew: &mut Crew<'_, R, G>,
    schema: &Schema,
    margins: &Margins,
    chunks: List<Chunk>,
    blocks: &[u64],
    aggs: &[Aggregate],
) -> Result<Groups, Memory>
    requires cells { HaveCells schema.now margins.now.items chunks }
    ensures whole { IfOk result (λ all. AreGroupsOf aggs.now
        (regrid_sets schema.now.dimensions blocks.now (core_rows schema.now.dimensions margins.now.items chunks)) all.groups) }
    ensures cells { IfOk result (λ all. cells_in all.groups < 2 ^ 63) }
{
    if !are_few(chunks.as_slice()) {
        return Err(Memory);
    }
    let parts = each_block_part(crew, schema, margins, chunks, blocks, aggs)?;
    merge_all(parts)
}

/// The aggregates of the cells of each block: an array of the target, chunk by chunk. What the array's margins hold doesn't matter.
pub fn regrid<R: Threads + Sync, G: Gate>(
    crew: &mut Crew<'_, R, G>,
    array: ChunkedArray,
    blocks: &[u64],
    aggs: &[Aggregate],
    target: &Schema,
) -> Result<ChunkedArray, Memory>
    requires whole { array.broken ≡ None }
    requires cells { HasCells array }
    requires target { target.now ≡ regrid_schema blocks.now aggs.now array.schema }
    requires valid { IsValid target.now }
    requires typed { IsTrue (are_aggregates_of array.schema.attributes aggs.now) }
    ensures array { IfOk result (λ made. Is made (regrid_meant blocks.now aggs.now (meant_by_cores array))) }
    ensures margins { IfOk result (λ made. made.margins.items ≡ overlaps target.now.dimensions) }
{
    let ChunkedArray {
        schema,
        margins,
        chunks,
        broken: _,
    } = array;
    let groups = blocks_by_parts(crew, &schema, &margins, chunks, blocks, aggs)?;
    told_array(groups, target)
}
