//! The chunks of an array through an operator.
ghost use Rattle.std.specs.Prelude.{IfOk};
ghost use Rattle.array_parts.specs.Made.{IsMadeBy};
ghost use Rattle.array_parts.specs.Placed.{HasPlaces, HavePlaces};
ghost use Rattle.exec_box.specs.Made.{AreMadeOf};

use afl_outside::Gate;
use array_geom::Chunk;
use array_parts::{ChunkOperator, with_cells};
use cell_values::{List, Margins, Memory, Schema};
use chunk_workers::{Crew, Work, over_pieces};
use std::thread::Threads;

/// An operator, and the schema and the margins of the array on whose chunks it is to work.
#[derive(Drop)]
struct OnChunk<'a, O> {
    schema: &'a Schema,
    margins: &'a Margins,
    operator: &'a O,
}

impl<O: ChunkOperator + Sync> Work<Chunk, Chunk> for OnChunk<'_, O> {
    ghost accepts = { λ on chunk. HasPlaces on.schema.now on.margins.now.items chunk };

    ghost gives = { λ on chunk made. IsMadeBy (O.operator on.operator.now) on.schema.now.dimensions on.margins.now.items chunk made };

    fn size(&self, chunk: &Chunk) -> usize {
        chunk.cells.len()
    }

    fn work(&self, chunk: Chunk) -> Result<Chunk, Memory> {
        self.operator.apply(self.schema, self.margins, chunk)
    }
}

/// What an operator makes of chunks: a chunk again where its core holds a cell afterwards.
pub(crate) fn over_chunks<R: Threads + Sync, O: ChunkOperator + Sync, G: Gate>(
    crew: &mut Crew<'_, R, G>,
    schema: &Schema,
    margins: &Margins,
    chunks: List<Chunk>,
    operator: &O,
) -> Result<List<Chunk>, Memory>
    requires { HavePlaces schema.now margins.now.items chunks }
    ensures { IfOk result (AreMadeOf (O.operator operator.now) schema.now.dimensions margins.now.items chunks) }
{
    let on = OnChunk {
        schema,
        margins,
        operator,
    };
    let made = over_pieces(crew, chunks, &on)?;
    with_cells(schema, margins, made)
}
