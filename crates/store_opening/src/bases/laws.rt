//! Laws of the base of a found file.
ghost use Rattle.store_opening.specs.Laws.{BasesBegin, BasesLieApart, DirectoriesAreCounted};

/// A history begins at the base of what is found, with its names and pages.
pub fn bases_begin()
    ensures { BasesBegin }
{}

/// At the base of what is found the catalogue's pages are none of a version.
pub fn bases_lie_apart()
    ensures { BasesLieApart }
{}

/// What is found has a directory for each version.
pub fn directories_are_counted()
    ensures { DirectoriesAreCounted }
{}
