//! Laws of the chunks of arrays that hold rows.
ghost use Rattle.chunk_source.specs.Laws.{ChunksAreValid, SoundRowsHaveSoundChunks};

/// Each chunk of an array that holds rows is a valid chunk of the array's schema and margins.
pub fn chunks_are_valid()
    ensures { ChunksAreValid }
{}

/// The chunks of an array that holds sound rows hold sound cells alone.
pub fn sound_rows_have_sound_chunks()
    ensures { SoundRowsHaveSoundChunks }
{}
