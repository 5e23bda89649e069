//! Commits that may be written.

ghost use Rattle.page_file.specs.Examples.{CommitsMayBeWritten};

/// There are commits that may be written: a payload in one page, a chain in another, and a log page.
pub fn commits_may_be_written()
    ensures { CommitsMayBeWritten }
{}
