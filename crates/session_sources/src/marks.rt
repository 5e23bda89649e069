//! What a source keeps of its calls.
ghost use Rattle.std.specs.Prelude.{◌≡◌, ◌≤◌, [], ◌∷◌, ◌++◌, OnOk, OnErr};
ghost use Rattle.chunk_source.specs.Source.{asks};

use array_geom::Chunk;
use cell_values::{ChunkAt, List, Memory, copy_numbers};
use chunk_source::{Asked, SourceFault};
use snapshot_manager::ReadFault;
use std::alloc::Global;

/// The chunks that were asked for, the first one first, the page that was found damaged, and how often the source has failed, up to the
/// last value of a `u64`.
#[derive(Drop)]
pub struct Marks {
    pub asked: List<Asked>,
    pub damaged: Option<u32>,
    pub faults: u64,
}

impl Marks {
    ghost use Rattle.session_sources.specs.Inner.Marking.{answer_of, marks_after, no_marks};

    pub(crate) fn new(alloc: Global) -> Marks
        ensures { result ≡ no_marks }
    {
        Marks {
            asked: List::new(alloc),
            damaged: None,
            faults: 0,
        }
    }

    /// A chunk is asked for.
    pub(crate) fn ask(&mut self, number: u32, at: &ChunkAt) -> Result<(), Memory>
        ensures ok { OnOk result (self.new ≡ record self.old { asked = self.old.asked ++ asks number at.now ∷ [] }) }
        ensures err { OnErr result (self.new ≡ self.old) }
    {
        self.asked.push(Asked {
            leaf: number,
            at: copy_numbers(at),
        })
    }

    /// What a source answers where the store answered this, which it keeps.
    pub(crate) fn answer(&mut self, answer: Result<Chunk, ReadFault>) -> Result<Chunk, SourceFault>
        ensures answer { result ≡ answer_of answer }
        ensures marks { self.new ≡ marks_after answer self.old }
        ensures later { self.old.faults ≤ self.new.faults }
    {
        match answer {
            Ok(chunk) => Ok(chunk),
            Err(ReadFault::Disk) => {
                self.faults = self.faults.saturating_add(1);
                Err(SourceFault::Failed)
            }
            Err(ReadFault::Damaged { page }) => {
                self.damaged = Some(page);
                Err(SourceFault::Damaged { page })
            }
            Err(ReadFault::Memory) => Err(SourceFault::Memory),
        }
    }
}
