//! What holds of courses, and of the versions of sources.
ghost use Rattle.session_sources.specs.Laws.{CoursesAddOwn, CoursesJoin, CoursesKeepNotes, CoursesKeepPins, CoursesMayBeEmpty, FaultsAreOwn, TurnsAreCourses};
ghost use Rattle.session_sources.specs.Laws.{HeldSourcesHoldVersions, PinnedSourcesHoldVersions};
ghost use Rattle.session_sources.specs.Worked.{IsWorked};

use afl_outside::Disk;

/// A session's turns are courses, as many as there are in a row; a course keeps its open pin, and the notes under it.
pub fn courses_are_told<D: Disk>()
    ensures turns { TurnsAreCourses }
    ensures none { CoursesMayBeEmpty }
    ensures join { CoursesJoin }
    ensures own { CoursesAddOwn }
    ensures faults { FaultsAreOwn }
    ensures pins { CoursesKeepPins D }
    ensures notes { CoursesKeepNotes D }
    ensures worked { IsWorked }
{}

/// The sources have the versions that can be named.
pub fn sources_hold_their_versions<D: Disk>()
    ensures pinned { PinnedSourcesHoldVersions D.moment }
    ensures held { HeldSourcesHoldVersions D.moment }
{}
