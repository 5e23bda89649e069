//! A commit may use free pages that it is given. No code has to be run for it.

ghost use Rattle.store_state.specs.GivenLaws.{RecordsMayUse, BasesMayUse, FreePagesDiffer};

/// A commit of a record, or of a new base, may use free pages that it is given, and shares no pages but its own.
pub fn commits_may_use_free_pages()
    ensures records { RecordsMayUse }
    ensures bases { BasesMayUse }
{}

/// No page is free twice.
pub fn free_pages_differ()
    ensures { FreePagesDiffer }
{}
