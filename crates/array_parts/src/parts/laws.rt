//! Laws of chunks that are parts of rows.
ghost use Rattle.array_parts.specs.PartsLaws.{ArraysAreSound, ChunksAreParts, HeldPartsAreChunks, MadePartsAreParts, ChangesAreLocal, CutsAreLocal};

/// The cells of an array's chunks have places.
pub fn arrays_are_sound()
    ensures { ArraysAreSound }
{}

/// Of parts those whose core holds a cell are the chunks of an array, and what a local operator makes of parts are parts of what
/// it makes of the rows.
pub fn parts_are_chunks()
    ensures parts { ChunksAreParts }
    ensures held { HeldPartsAreChunks }
    ensures made { MadePartsAreParts }
{}

/// Changes cell by cell and cuts to boxes are local.
pub fn operators_are_local()
    ensures changes { ChangesAreLocal }
    ensures cuts { CutsAreLocal }
{}
