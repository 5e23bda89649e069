//! What gives the chunks of stored arrays.
ghost use Rattle.std.specs.Prelude.{◌≡◌, IfOk, IsTrue};
ghost use Rattle.array_geom.specs.Link.{NumbersRise};
ghost use Rattle.logical_plan.specs.Meaning.{Database};
ghost use Rattle.chunk_source.specs.Source.{SourceState, Reads, listed, is_among, numbers_of, IsStored, AreNumbersIn, IsChunkIn, Keeps, Blames, AsksFor};

use crate::sources::SourceFault;
use array_geom::Chunk;
use cell_values::{ChunkAt, List};
use logical_plan::Leaf;

/// What gives the chunks of stored arrays. It may tell the database that they are; then its lists and chunks are that one's. It
/// gives sound chunks whether it tells one or not. No call changes the arrays, what is told, or the value with which the source
/// was made.
pub trait ChunkSource {
    /// What whoever made the source knows of its start.
    type Start;

    ghost state: { Self → SourceState };

    ghost start: { Self → Self.Start };

    /// The numbers of the chunks of a leaf, rising.
    fn listed(&mut self, leaf: &Leaf) -> Result<List<ChunkAt>, SourceFault>
        requires { Reads (state self.old) leaf.now }
        ensures listed { IfOk result (λ chunks. chunks ≡ listed (state self.old) leaf.now) }
        ensures rising { IfOk result (λ chunks. NumbersRise (numbers_of chunks)) }
        ensures told { IfOk result (λ chunks. (db : Database) → (state self.old).tells db → AreNumbersIn db leaf.now chunks) }
        ensures asked { (state self.new).asked ≡ (state self.old).asked }
        ensures kept { Keeps (state self.old) (state self.new) }
        ensures cause { Blames (state self.old) (state self.new) result }
        ensures start { start self.new ≡ start self.old };

    /// A chunk of the leaf that has this number in its plan.
    fn chunk(&mut self, number: u32, leaf: &Leaf, at: &ChunkAt) -> Result<Chunk, SourceFault>
        requires reads { Reads (state self.old) leaf.now }
        requires listed { IsTrue (is_among at.now (listed (state self.old) leaf.now)) }
        ensures stored { IfOk result (IsStored leaf.now.schema at.now) }
        ensures told { IfOk result (λ chunk. (db : Database) → (state self.old).tells db → IsChunkIn db leaf.now chunk) }
        ensures asked { AsksFor number at.now (state self.old) (state self.new) result }
        ensures kept { Keeps (state self.old) (state self.new) }
        ensures cause { Blames (state self.old) (state self.new) result }
        ensures start { start self.new ≡ start self.old };

    /// The page that was found damaged. None at first.
    fn damaged(&self) -> Option<u32>
        ensures { result ≡ (state self.now).damaged };

    /// How often it has failed. The count never falls.
    fn faults(&self) -> u64
        ensures { result ≡ (state self.now).faults };
}
