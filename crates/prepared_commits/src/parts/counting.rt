//! How many pages a commit needs.
ghost use Rattle.std.specs.Prelude.{◌≡◌, ◌+◌, IfOk, IfSome, IsTrue};
ghost use Rattle.std.specs.Option.{is_some, option_copied};
ghost use Rattle.chunk_map.specs.Entries.{AreRising};
ghost use Rattle.plan_changes.specs.Allowed.{names_allow};
ghost use Rattle.plan_changes.specs.Changes.{name_of, newest_of};
ghost use Rattle.version_catalog.specs.Catalogs.{names_in};
ghost use Rattle.event_core.specs.Apart.{makes_version};
ghost use Rattle.store_state.specs.Versions.{HasRisingNumbers};
ghost use Rattle.prepared_commits.specs.Needs.{needs_by, or_empty};
ghost use Rattle.store_versions.specs.Seen.{seen};
ghost use Rattle.store_versions.specs.Versions.{directory_of};

use cell_values::{List, Memory};
use chunk_map::Directory;
use logical_plan::Names;
use page_chain::Target;
use plan_changes::{Change, changed_name, newest_of};
use std::alloc::Global;
use store_state::{Written, needed_for_base, needed_for_record};
use store_versions::VersionTable;
use version_catalog::Catalog;

/// The directory of the newest version of the array that a change is about, as a place sees it.
pub(crate) fn newest_at<'a>(
    table: &'a VersionTable,
    names: &Names,
    place: u64,
    change: &Change,
) -> Option<&'a Directory>
    ensures { option_copied result ≡ directory_of (name_of change.now) (newest_of names.now.arrays (name_of change.now)) (seen place table.now.rows) }
{
    let name = changed_name(change);
    table.directory_at(name, newest_of(&names.arrays, name), place)
}

/// One more. A count that passes 64 bits is of more pages than memory can name.
fn one_more(count: u64) -> Result<u64, Memory>
    ensures { IfOk result (λ more. more ≡ count + 1) }
{
    match count.checked_add(1) {
        Some(more) => Ok(more),
        None => Err(Memory),
    }
}

/// How many pages the commit needs: of a record, or of a new base with its log page.
fn needed(
    alloc: Global,
    target: Target,
    catalog: &Catalog,
    newest: &Directory,
    change: &Change,
    written: &Option<Written>,
) -> Result<u64, Memory>
    requires names { IsTrue (names_allow (names_in catalog.now) change.now) }
    requires comes { is_some written.now ≡ makes_version change.now }
    requires written { IfSome written.now HasRisingNumbers }
    requires newest { AreRising newest.now.entries }
    ensures { IfOk result (λ count. count ≡ needs_by target catalog.now newest.now change.now written.now) }
{
    match target {
        Target::Record => needed_for_record(alloc, catalog, newest, change, written),
        Target::Root => one_more(needed_for_base(alloc, catalog, newest, change, written)?),
    }
}

/// The same over the newest version's directory, where there is one.
pub(crate) fn needed_over(
    alloc: Global,
    target: Target,
    catalog: &Catalog,
    newest: Option<&Directory>,
    change: &Change,
    written: &Option<Written>,
) -> Result<u64, Memory>
    requires names { IsTrue (names_allow (names_in catalog.now) change.now) }
    requires comes { is_some written.now ≡ makes_version change.now }
    requires written { IfSome written.now HasRisingNumbers }
    requires newest { AreRising (or_empty (option_copied newest)).entries }
    ensures { IfOk result (λ count. count ≡ needs_by target catalog.now (or_empty (option_copied newest.entry)) change.now written.now) }
{
    match newest {
        Some(newest) => needed(alloc, target, catalog, newest, change, written),
        None => {
            let newest = Directory {
                entries: List::new(alloc),
            };
            needed(alloc, target, catalog, &newest, change, written)
        }
    }
}
