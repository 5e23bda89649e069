//! How long what is read is, also where nothing says that a file has bytes. No code has to be run for it.

ghost use Rattle.store_state.specs.SizesLaws.{ReadDirectoriesAreAsLong, ReadPayloadsAreAsLong};

/// Numbers that are read as a directory are as many as its spelling has.
pub fn read_directories_are_as_long()
    ensures { ReadDirectoriesAreAsLong }
{}

/// Numbers that are read as a chunk are as many as its spelling has.
pub fn read_payloads_are_as_long()
    ensures { ReadPayloadsAreAsLong }
{}
