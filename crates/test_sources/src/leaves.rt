//! The array alone.
ghost use Rattle.cell_values.specs.Schemas.{IsValid};
ghost use Rattle.chunk_source.specs.Source.{Reads};
ghost use Rattle.test_sources.specs.Example.{leaf};

use crate::example::example_leaf;
use crate::layout::Layout;
use crate::show::{push_cause, push_chunks, push_faults};
use cell_values::{Bounds, Memory, coord_of};
use chunk_source::{ChunkSource, read_part};
use logical_plan::Leaf;
use test_kit::Transcript;

/// The number of a leaf in a plan.
const NUMBER: u32 = 3;

/// All places of the array.
fn whole_area() -> Bounds {
    Bounds {
        lo: coord_of(&[0]),
        hi: coord_of(&[3]),
    }
}

/// Reads a leaf, and adds its chunks or why it could not be read, and how often the source has failed.
fn push_leaf<S: ChunkSource>(out: &mut Transcript, source: &mut S, leaf: &Leaf)
    requires reads { Reads (S.state source.old) leaf.now }
    requires valid { IsValid leaf.now.schema }
{
    let area = whole_area();
    match read_part(out.alloc(), source, NUMBER, leaf, &area) {
        Ok(array) => {
            push_chunks(out, array.chunks.as_slice());
            drop(array);
        }
        Err(cause) => push_cause(out, cause),
    }
    push_faults(out, source);
}

/// Reads the leaf of the array.
#[tactic(auto, using(crate::proofs::Stored::leaf_valid))]
pub(crate) fn push_stored<S: ChunkSource>(out: &mut Transcript, source: &mut S, layout: Layout)
    requires { Reads (S.state source.old) (leaf layout) }
{
    match example_leaf(out.alloc(), layout) {
        Ok(leaf) => {
            push_leaf(out, source, &leaf);
            drop(leaf);
        }
        Err(Memory) => out.note_short(),
    }
}
