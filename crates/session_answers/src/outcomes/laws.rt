//! What comes of statements, and what their replies tell.
ghost use Rattle.session_answers.specs.BehindPins.{PinnedOutcomesAreSaid};
ghost use Rattle.session_answers.specs.Changing.{ReadChangesMayBeCommitted};
ghost use Rattle.session_answers.specs.Freshly.{FreshChangesAreLeftSince};
ghost use Rattle.session_answers.specs.Said.{OutcomesAreSaid};
ghost use Rattle.session_answers.specs.ToldReplies.{FailuresAreNoted, SaidRepliesAreTold, UnreadRepliesAreTold};
ghost use Rattle.session_answers.specs.Under.{FailedRepliesAreTold, ReadRepliesAreTold};

use afl_outside::Disk;

/// What comes of a statement over the database of a place is what it says there; what comes of it over a pin's source is said behind the pin.
pub fn outcomes_are_said<D: Disk>()
    ensures said { OutcomesAreSaid D.moment }
    ensures behind { PinnedOutcomesAreSaid D.moment }
{}

/// A reply of what is said behind a pin tells what it has to, and so does the one that tells why a source gave no answer.
pub fn replies_are_told<D: Disk>()
    ensures said { SaidRepliesAreTold D.moment }
    ensures unread { UnreadRepliesAreTold D.moment }
{}

/// A disk that failed for a session's pin left the note of it among what the session added.
pub fn failures_are_noted<D: Disk>()
    ensures { FailuresAreNoted D.moment }
{}

/// What was read under a pin is told right behind it, and so is why it could not be read; a change that was read may be committed.
pub fn readings_are_told<D: Disk>()
    ensures read { ReadRepliesAreTold D.moment }
    ensures failed { FailedRepliesAreTold D.moment }
    ensures changes { ReadChangesMayBeCommitted D.moment }
{}

/// A change that was fresh when a turn had found the store is left by all that came since right behind the pin.
pub fn fresh_changes_are_left<D: Disk>()
    ensures { FreshChangesAreLeftSince D }
{}
