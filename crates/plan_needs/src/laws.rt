//! Laws of needs.
ghost use Rattle.plan_needs.specs.Sufficient.{NeedsAreSufficient};
ghost use Rattle.plan_needs.specs.Target.{OtherChunksStay, TargetNeedsAreSufficient};

/// What a plan needs is sufficient: it means the same, faults included, over two databases that have the same wanted chunks at each of
/// its leaves, with the same cells in their frames.
pub fn needs_are_sufficient()
    ensures { NeedsAreSufficient }
{}

/// What an insert needs of its target is sufficient: of two versions that have the same chunks round the cells that are put in, each
/// chunk whose frame holds such a cell becomes the same.
pub fn target_needs_are_sufficient()
    ensures { TargetNeedsAreSufficient }
{}

/// A chunk whose frame holds no cell that is put in stays as it is.
pub fn other_chunks_stay()
    ensures { OtherChunksStay }
{}
