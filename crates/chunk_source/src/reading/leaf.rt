//! The chunks of leaves.
ghost use Rattle.std.specs.Prelude.{◌≡◌, ◌++◌, map, IfOk, OnOk, OnErr, IsTrue};
ghost use Rattle.std.specs.List.{AllByRecursion, AllZip};
ghost use Rattle.logical_plan.specs.Meaning.{Database};
ghost use Rattle.chunk_source.specs.Source.{Reads, listed, is_among, IsStored, IsChunkIn, Keeps, AsksFront, asks};
ghost use Rattle.chunk_source.specs.Faults.{Answers};

use crate::reading::ExecFault;
use crate::sources::ChunkSource;
use array_geom::Chunk;
use cell_values::{ChunkAt, List};
use logical_plan::Leaf;

/// Reads these chunks of a leaf.
pub(crate) fn read_chunks<S: ChunkSource>(
    source: &mut S,
    number: u32,
    leaf: &Leaf,
    chunks: &[ChunkAt],
) -> Result<List<Chunk>, ExecFault>
    requires reads { Reads (S.state source.old) leaf.now }
    requires listed { AllByRecursion (λ at. IsTrue (is_among at (listed (S.state source.old) leaf.now))) chunks.now }
    ensures stored { IfOk result (AllZip (IsStored leaf.now.schema) chunks.now) }
    ensures told { IfOk result (λ read. (db : Database) → (S.state source.old).tells db → AllByRecursion (IsChunkIn db leaf.now) read) }
    ensures asked { OnOk result ((S.state source.new).asked ≡ (S.state source.old).asked ++ map (asks number) chunks.now) }
    ensures front { OnErr result (AsksFront (map (asks number) chunks.now) (S.state source.old) (S.state source.new)) }
    ensures kept { Keeps (S.state source.old) (S.state source.new) }
    ensures cause { Answers (S.state source.old) (S.state source.new) result }
    ensures start { S.start source.new ≡ S.start source.old }
{
    let mut read = leaf.schema.dimensions.another();
    for at in chunks {
        read.push(source.chunk(number, leaf, at)?)?;
    }
    Ok(read)
}
