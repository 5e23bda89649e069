//! What holds of ledgers.
ghost use Rattle.store_ledger.specs.Laws.{EventsGrowByEntries, EventsGrowByNotes, NotesAreWithin, NotesOutlast};
ghost use Rattle.store_ledger.specs.Laws.{OpenPinsOutlast, PinsReserveThree, TriedGivesTwoBack, UnpinsGiveBack};

/// One more entry, or one more note, comes behind all events before.
pub fn events_only_grow()
    ensures entries { EventsGrowByEntries }
    ensures notes { EventsGrowByNotes }
{}

/// An open pin stays one over all entries but its session's pins and unpins, and over all notes.
pub fn open_pins_outlast()
    ensures { OpenPinsOutlast }
{}

/// So does what was noted under it, over all notes but its session's.
pub fn notes_outlast()
    ensures { NotesOutlast }
{}

/// A pin reserves three entries more.
pub fn pins_reserve_three()
    ensures { PinsReserveThree }
{}

/// An unpin gives back what its pin had reserved.
pub fn unpins_give_back()
    ensures { UnpinsGiveBack }
{}

/// The first commit that is tried under a pin gives back two of the entries that it had reserved.
pub fn tried_gives_two_back()
    ensures { TriedGivesTwoBack }
{}

/// No note of a ledger comes behind more entries than there are.
pub fn notes_are_within()
    ensures { NotesAreWithin }
{}
