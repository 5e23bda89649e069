//! What holds of each allowed history, whatever the code does.
ghost use Rattle.std.specs.Prelude.{◌≡◌, true, ◌&&◌, [], ◌∷◌, map, length};
ghost use Rattle.event_core.specs.PageSets.{holds};
ghost use Rattle.event_core.specs.History.{open_pins, catalogue_at, pages_at};
ghost use Rattle.event_core.specs.Pages.{free_at, has_page};
ghost use Rattle.event_core.specs.Allowed.{IsBase};
ghost use Rattle.event_core.specs.Apart.{AllShareOwn, AreApart};
ghost use Rattle.event_core.specs.Legal.{IsLegal, AllStoreArrays};
ghost use Rattle.event_core.specs.Worked.{worked_base, worked, worked_on, worked_cost, page_used_twice};
ghost use Rattle.store_versions.specs.LegalLaws.{NamedVersionsHavePages, NamesAreOfTheDatabase, LegalIsOrdered, OrderedIsAllowed};
ghost use Rattle.store_versions.specs.LegalLaws.{OrderedNamesAreStored, OrderedVersionsHavePages, LegalDatabases};
ghost use Rattle.store_versions.specs.Promises.{CataloguesStayApart, NoFreePageIsLive, NoFreshPageWasLive};
ghost use Rattle.store_versions.specs.Promises.{PinnedPagesStayLive, ReapFreesTheRest, FreePagesAreWithin};
ghost use Rattle.store_versions.specs.Promises.{ReapKeepsFreePages, ReapsWithoutGainChangeNothing, PagesAreConserved};
ghost use Rattle.store_versions.specs.Cores.{CoreFollowsEntries, CoreTellsAllowed, BaseIsFirstCore, CoreTellsPages, ReadyOutlasts};
ghost use Rattle.store_versions.specs.Pins.{PinsStay, OpenPinsStay, OpenPinsAreThese, CorePinsAreThese, BeginningsAreKept, AllEntriesAreTheHistory, PlacesTellPins};
ghost use Rattle.store_versions.specs.SharedLaws.{SharedIsLegal, SharedPages};

use plan_changes::names_depend_on_no_row;

/// No free page is live.
pub fn no_free_page_is_live()
    ensures { NoFreePageIsLive }
{}

/// No fresh page of a commit was live before it.
pub fn no_fresh_page_was_live()
    ensures { NoFreshPageWasLive }
{}

/// What could be named when a pin began stays live until its unpin.
pub fn pinned_pages_stay_live()
    ensures { PinnedPagesStayLive }
{}

/// A reap frees exactly what nobody can name.
pub fn reap_frees_the_rest()
    ensures { ReapFreesTheRest }
{}

/// Each free page is one from 1 below the limit.
pub fn free_pages_are_within()
    ensures { FreePagesAreWithin }
{}

/// A reap takes no page from the free ones.
pub fn reap_keeps_free_pages()
    ensures { ReapKeepsFreePages }
{}

/// Where no page awaits a reap, a reap leaves the free pages as they were.
pub fn reaps_without_gain_change_nothing()
    ensures { ReapsWithoutGainChangeNothing }
{}

/// Each page from 1 below the limit is free, live or awaiting a reap, and is so once.
pub fn pages_are_conserved()
    ensures { PagesAreConserved }
{}

/// After each allowed history whose commits share no pages but their own, no page of the catalogue is one of a version that
/// can be named, now or at an open pin.
pub fn catalogues_stay_apart()
    ensures { CataloguesStayApart }
{}

/// The core after one more entry is what the entry makes of the core before it.
pub fn core_follows_entries()
    ensures { CoreFollowsEntries }
{}

/// The core alone tells which entries are allowed after the history.
pub fn core_tells_allowed()
    ensures { CoreTellsAllowed }
{}

/// A base is the core of no entries.
pub fn base_is_first_core()
    ensures { BaseIsFirstCore }
{}

/// The core alone tells which pages are live, and which await a reap.
pub fn core_tells_pages()
    ensures { CoreTellsPages }
{}

/// A commit that was made ready stays so over pins, unpins and reaps.
pub fn ready_outlasts()
    ensures { ReadyOutlasts }
{}

/// What was before a session's open pin is left by all entries but its own pins and unpins.
pub fn open_pins_stay()
    ensures begun { PinsStay }
    ensures kept { OpenPinsStay }
{}

/// What was before a session's open pin is what the open pins have of that session, and the core.
pub fn open_pins_are_these()
    ensures history { OpenPinsAreThese }
    ensures core { CorePinsAreThese }
{}

/// The first so many entries of a history stay what they are, and what was before an open pin is found by its place.
pub fn beginnings_are_kept()
    ensures later { BeginningsAreKept }
    ensures all { AllEntriesAreTheHistory }
    ensures pins { PlacesTellPins }
{}

/// The versions that can be named are those that have pages.
pub fn named_versions_have_pages()
    ensures { NamedVersionsHavePages }
{}

/// The names after a history are those of the database after it.
pub fn names_are_of_the_database()
    ensures { NamesAreOfTheDatabase }
{
    names_depend_on_no_row();
}

/// A legal history is an ordered one: legal but for what it says of cells.
pub fn legal_is_ordered()
    ensures { LegalIsOrdered }
{}

/// An ordered history is an allowed one, over a base.
pub fn ordered_is_allowed()
    ensures { OrderedIsAllowed }
{}

/// After an ordered history the names and the numbers of versions rise, and no more arrays stand than may.
pub fn ordered_names_are_stored()
    ensures { OrderedNamesAreStored }
{}

/// After an ordered history the versions that can be named are those that have pages.
pub fn ordered_versions_have_pages()
    ensures { OrderedVersionsHavePages }
{}

/// After a legal history, whose plans each mean an array of its schema over the database before, there is a database.
pub fn legal_databases()
    ensures { LegalDatabases }
{}

/// There is a legal history, in which a removed version's pages wait until the pin that could name it is gone.
pub fn a_history_is_legal()
    ensures base { IsBase worked_base }
    ensures legal { IsLegal worked_cost [] worked_base worked_on }
    ensures stores { AllStoreArrays [] worked_on }
    ensures apart { AreApart worked_base [] }
    ensures own { AllShareOwn worked_base worked_on }
    ensures places { map (λ pin. length pin.before) (open_pins worked) ≡ 3 ∷ 4 ∷ [] }
    ensures free { free_at worked_base worked ≡ 1 ∷ 4 ∷ 6 ∷ 7 ∷ 8 ∷ 9 ∷ 10 ∷ 11 ∷ 12 ∷ 13 ∷ 14 ∷ 15 ∷ [] }
    ensures free_later { free_at worked_base worked_on ≡ 1 ∷ 2 ∷ 3 ∷ 4 ∷ 6 ∷ 7 ∷ 8 ∷ 9 ∷ 10 ∷ 11 ∷ 12 ∷ 13 ∷ 14 ∷ 15 ∷ [] }
{}

/// A legal history may use one page for a version and for the catalogue. Its commit shares a page that is not its own.
pub fn a_page_used_twice_is_refused()
    ensures legal { IsLegal worked_cost [] worked_base page_used_twice }
    ensures twice { (holds (catalogue_at worked_base page_used_twice) 1 && has_page (pages_at worked_base page_used_twice) 1) ≡ true }
    ensures refused { AllShareOwn worked_base page_used_twice → ⊥ }
{}

/// There is a legal history in which an insert shares a page with the version before it, versions are removed under a pin that can
/// name them, and what they alone have is free after the second reap.
pub fn a_history_shares_a_page()
    ensures legal { SharedIsLegal }
    ensures pages { SharedPages }
{}
