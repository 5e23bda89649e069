//! What holds of the marks of sessions.
ghost use Rattle.afl_session.specs.ScriptsLaws.{MarksStay, SessionsStay};
ghost use Rattle.afl_session.specs.ScriptsWorked.{IsWorked};

use afl_outside::Disk;

/// What a mark tells of a statement that was answered between two beginnings of a history is told of the whole history, and so is what a
/// session served.
pub fn marks_stay<D: Disk>()
    ensures stay { MarksStay D.moment }
    ensures sessions { SessionsStay D.moment }
    ensures worked { IsWorked D.moment }
{}
