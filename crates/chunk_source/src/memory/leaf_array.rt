//! An array in memory, and the leaf that it is.
ghost use Rattle.std.specs.Prelude.{◌≡◌};
ghost use Rattle.chunk_source.specs.Found.{is_of};

use array_geom::ChunkedArray;
use logical_plan::Leaf;

/// A version of a stored array, and its chunks.
pub struct LeafArray {
    pub leaf: Leaf,
    pub array: ChunkedArray,
}

impl Drop for LeafArray {
    fn drop(self) {
        let LeafArray { leaf: _, array: _ } = self;
    }
}

/// Whether the array is this version of this name.
pub(crate) fn is_of(stored: &LeafArray, leaf: &Leaf) -> bool
    ensures { result ≡ is_of leaf.now.name leaf.now.version stored.now }
{
    stored.leaf.name.as_slice() == leaf.name.as_slice() && stored.leaf.version == leaf.version
}
