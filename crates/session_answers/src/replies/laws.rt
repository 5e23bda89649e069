//! What holds of the acts of sessions, and of replies.
ghost use Rattle.session_answers.specs.Fresh.{FreshChangesAreSaid};
ghost use Rattle.session_answers.specs.RepliesLaws.{ActsJoin, OpenPinsAreEntered, PinsChangeNothing, RepliesStay};
ghost use Rattle.session_answers.specs.RepliesWorked.{IsWorked};
ghost use Rattle.session_answers.specs.WorkedReplies.{AreWorked};
ghost use Rattle.statement_replies.specs.declared.replies.style.Style.{Style};

use afl_outside::Disk;

/// The acts among events are those of their parts; and what a reply tells stays, whatever comes later.
pub fn replies_stay<D: Disk>()
    ensures acts { ActsJoin }
    ensures stay { RepliesStay D.moment }
{}

/// The entry of an open pin stands at its place, and behind it stands what stood before it.
pub fn pins_are_entered<D: Disk>()
    ensures entered { OpenPinsAreEntered D }
    ensures behind { PinsChangeNothing D }
{}

/// A change that no entry between two places is about is said again at the later one, with the same reply.
pub fn fresh_changes_are_said<D: Disk>()
    ensures { FreshChangesAreSaid D.moment }
{}

/// A damaged page that a pin sees stays one, though the array is removed.
pub fn a_damaged_page_is_told()
    ensures { IsWorked }
{}

/// What two sessions are told, in every style, of the removal of one array: that it was made, that there is no array any more, that a page is damaged, and that
/// the history is full.
pub fn some_replies_are_told()
    ensures { (style : Style) → AreWorked style }
{}
