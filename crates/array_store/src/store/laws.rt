//! What holds of a store's events.
ghost use Rattle.array_store.specs.StoreLaws.{CommitsAddEvents, EntriesAddEvents, FaultsAddEvents, NotesAddEvents};

use afl_outside::Disk;

/// What is done to a store comes behind all its events, and leaves its start.
pub fn events_grow<D: Disk>()
    ensures entries { EntriesAddEvents D }
    ensures commits { CommitsAddEvents D }
    ensures notes { NotesAddEvents D }
    ensures faults { FaultsAddEvents D }
{}
