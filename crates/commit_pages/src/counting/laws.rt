//! Worked costs of commits, and how long a log gets.
ghost use Rattle.commit_pages.specs.Inner.Examples.{CommitsCostTheirPages, WorkedIsLegal, LogsComeRound};
ghost use Rattle.commit_pages.specs.Inner.Sharing.{SharingIsLegal};
ghost use Rattle.commit_pages.specs.Lengths.{StoredPagesAreTold, WrittenPagesAreTold, DirectoriesAreAlike};
ghost use Rattle.commit_pages.specs.Lengths.{CatalogsReadNoPage, RecordsReadNoPage, ChangesKeepAlike};
ghost use Rattle.commit_pages.specs.Lengths.{CatalogsOfDatabases, RecordPagesAreTold, CataloguePagesAreTold};

/// What some changes of a small array cost, with a log that has room, with a full one and without one.
pub fn commits_cost_their_pages()
    ensures { CommitsCostTheirPages }
{}

/// There is a history whose commits take as many fresh pages as they cost.
pub fn a_history_is_legal_at_its_costs()
    ensures { WorkedIsLegal }
{}

/// A log has at most 64 records, and each 65th commit begins a new one.
pub fn logs_come_round()
    ensures { LogsComeRound }
{}

/// Payloads take as many pages in whichever order the chunks are listed.
pub fn payloads_cost_the_same_in_any_order()
    ensures stored { StoredPagesAreTold }
    ensures written { WrittenPagesAreTold }
{}

/// Directories, catalogues and records have as many bytes whichever pages they name and whichever commits wrote them.
pub fn lengths_hang_on_no_page()
    ensures directories { DirectoriesAreAlike }
    ensures catalogs { CatalogsReadNoPage }
    ensures records { RecordsReadNoPage }
    ensures changes { ChangesKeepAlike }
{}

/// What a record and the next catalogue cost is told by any catalogue and directory that are like those of the database.
pub fn costs_follow_the_catalogue()
    ensures next { CatalogsOfDatabases }
    ensures records { RecordPagesAreTold }
    ensures catalogs { CataloguePagesAreTold }
{}

/// There is a legal history whose versions share a page, of which one is removed under a pin; the second reap frees its other pages.
pub fn versions_share_pages_legally()
    ensures { SharingIsLegal }
{}
