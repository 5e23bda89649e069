//! Laws of what is known of a version by some of its chunks.
ghost use Rattle.chunk_source.specs.PartLaws.{KnownRowsAreAlike, KnownRowsAreSound};

/// What is known of a version by the chunks that are wanted for a box has the same wanted chunks as the version, with the same cells
/// in their frames.
pub fn known_rows_are_alike()
    ensures { KnownRowsAreAlike }
{}

/// It is rows of the version's schema, without a fault, and without a null where none may be.
pub fn known_rows_are_sound()
    ensures { KnownRowsAreSound }
{}
