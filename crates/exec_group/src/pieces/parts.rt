//! The groups of an array's cells, chunk by chunk.
ghost use Rattle.std.specs.Prelude.{◌≡◌, ◌≤◌, ◌<◌, ◌^◌, ◌∷◌, [], length, IsTrue, IfOk};
ghost use Rattle.std.specs.List.{AllZip};
ghost use Rattle.array_geom.specs.Link.{core_rows};
ghost use Rattle.group_rows.specs.Inner.Keys.{aggregate_sets};
ghost use Rattle.array_parts.specs.Cores.{HaveCells};
ghost use Rattle.group_rows.specs.Counts.{cells_in};
ghost use Rattle.group_rows.specs.Grouped.{AreGroupsOf};
ghost use Rattle.group_rows.specs.Sets.{all_sets, AreAllApart};
ghost use Rattle.exec_group.specs.Inner.Parts.{IsPartOf, sets_of, cells_held, has_parts};

use crate::parts::aggregate_part;
use afl_outside::Gate;
use array_geom::Chunk;
use cell_values::{List, Margins, Memory, Schema};
use chunk_workers::{Crew, Work, over_pieces};
use group_rows::{Groups, merge_all};
use logical_plan::Aggregate;
use std::thread::Threads;

/// Aggregates by dimensions, and the schema and the margins of the array of whose chunks they are to be.
#[derive(Drop)]
struct ByNames<'a> {
    schema: &'a Schema,
    margins: &'a Margins,
    aggs: &'a [Aggregate],
    dims: &'a [u32],
}

impl Work<Chunk, Groups> for ByNames<'_> {
    ghost accepts = { λ by chunk. HaveCells by.schema.now by.margins.now.items (chunk ∷ []) × (length by.dims.now ≤ 6) };

    ghost gives = { λ by chunk part. IsPartOf by.aggs.now by.dims.now by.schema.now.dimensions by.margins.now.items chunk part };

    fn size(&self, chunk: &Chunk) -> usize {
        chunk.cells.len()
    }

    fn work(&self, chunk: Chunk) -> Result<Groups, Memory> {
        aggregate_part(self.schema, self.margins, chunk, self.aggs, self.dims)
    }
}

/// The groups of each chunk's core.
fn each_part<R: Threads + Sync, G: Gate>(
    crew: &mut Crew<'_, R, G>,
    schema: &Schema,
    margins: &Margins,
    chunks: List<Chunk>,
    aggs: &[Aggregate],
    dims: &[u32],
) -> Result<List<Groups>, Memory>
    requires cells { HaveCells schema.now margins.now.items chunks }
    requires names { length dims.now ≤ 6 }
    ensures { IfOk result (AllZip (IsPartOf aggs.now dims.now schema.now.dimensions margins.now.items) chunks) }
{
    let by = ByNames {
        schema,
        margins,
        aggs,
        dims,
    };
    over_pieces(crew, chunks, &by)
}

/// Whether chunks hold fewer than 2^63 cells.
pub(crate) fn are_few(chunks: &[Chunk]) -> bool
    ensures { IsTrue result → cells_held chunks.now < 2 ^ 63 }
{
    let mut rest = chunks;
    let mut count = 0u64;
    while let Some((chunk, further)) = rest.split_first() {
        match count.checked_add(chunk.cells.len() as u64) {
            Some(more) => count = more,
            None => return false,
        }
        rest = further;
    }
    count < 1 << 63
}

/// The groups of all chunks' cores, found chunk by chunk and put together.
pub(crate) fn groups_by_parts<R: Threads + Sync, G: Gate>(
    crew: &mut Crew<'_, R, G>,
    schema: &Schema,
    margins: &Margins,
    chunks: List<Chunk>,
    aggs: &[Aggregate],
    dims: &[u32],
) -> Result<Groups, Memory>
    requires cells { HaveCells schema.now margins.now.items chunks }
    requires names { length dims.now ≤ 6 }
    ensures groups { AreAllApart (sets_of dims.now schema.now.dimensions margins.now.items chunks)
        → IfOk result (λ all. AreGroupsOf aggs.now (all_sets (sets_of dims.now schema.now.dimensions margins.now.items chunks)) all.groups) }
    ensures whole { IsTrue (has_parts dims.now chunks)
        → IfOk result (λ all. AreGroupsOf aggs.now (aggregate_sets dims.now (core_rows schema.now.dimensions margins.now.items chunks)) all.groups) }
    ensures cells { IfOk result (λ all. cells_in all.groups < 2 ^ 63) }
{
    if !are_few(chunks.as_slice()) {
        return Err(Memory);
    }
    let parts = each_part(crew, schema, margins, chunks, aggs, dims)?;
    merge_all(parts)
}
