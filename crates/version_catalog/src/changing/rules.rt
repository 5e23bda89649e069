//! Which records a catalogue allows.
ghost use Rattle.std.specs.Prelude.{◌≡◌, ◌&&◌, not};
ghost use Rattle.std.specs.List.{list_all, find};
ghost use Rattle.std.specs.Option.{option_copied};
ghost use Rattle.plan_changes.specs.Allowed.{has_number, has_room};
ghost use Rattle.plan_changes.specs.Changes.{has_array, last_of, newest_of};
ghost use Rattle.version_catalog.specs.Records.{entries_of, is_array, newest_in, is_allowed};

use crate::{Catalog, CatalogArray, CatalogRecord};
use cell_values::{List, Name};
use plan_changes::{is_same, last_of};

/// Whether an array has a number for one more version, if it has this name.
fn has_its_number(array: &CatalogArray, name: &Name) -> bool
    ensures { result ≡ has_number name.now array.now.entry }
{
    !is_same(&array.entry.name, name) || array.entry.next < 65536
}

fn all_numbers(arrays: &[CatalogArray], name: &Name) -> bool
    ensures { result ≡ list_all (λ array. has_number name.now array.entry) arrays.now }
{
    for array in arrays {
        if !has_its_number(array, name) {
            return false;
        }
    }
    true
}

/// Whether the array of this name has a number for one more version.
fn has_number(arrays: &List<CatalogArray>, name: &Name) -> bool
    ensures { result ≡ list_all (has_number name.now) (entries_of arrays.now) }
{
    all_numbers(arrays.as_slice(), name)
}

/// The array of a name.
fn array_named<'a>(arrays: &'a List<CatalogArray>, name: &Name) -> Option<&'a CatalogArray>
    ensures { option_copied result ≡ find (is_array name.now) arrays.now }
{
    arrays
        .as_slice()
        .iter()
        .find(|array| is_same(&array.entry.name, name))
}

/// Whether an array has this name.
pub(crate) fn has_array(arrays: &List<CatalogArray>, name: &Name) -> bool
    ensures { result ≡ has_array (entries_of arrays.now) name.now }
{
    array_named(arrays, name).is_some()
}

/// The newest version of an array, 0 where there is none.
fn newest_in(found: Option<&CatalogArray>) -> u32
    ensures { result ≡ newest_in (option_copied found.entry) }
{
    match found {
        Some(array) => last_of(&array.entry.versions),
        None => 0,
    }
}

/// The newest version of the array of a name, 0 where there is none.
fn newest_version(arrays: &List<CatalogArray>, name: &Name) -> u32
    ensures { result ≡ newest_of (entries_of arrays.now) name.now }
{
    newest_in(array_named(arrays, name))
}

/// Whether one more array may stand.
#[tactic(auto, using(crate::proofs::Maps::same_count))]
fn has_room(arrays: &List<CatalogArray>) -> bool
    ensures { result ≡ has_room (entries_of arrays.now) }
{
    arrays.len() < 1024
}

/// Whether one more array may stand, and none has this name.
fn has_room_for(arrays: &List<CatalogArray>, name: &Name) -> bool
    ensures { result ≡ (not (has_array (entries_of arrays.now) name.now) && has_room (entries_of arrays.now)) }
{
    !has_array(arrays, name) && has_room(arrays)
}

/// Whether a record of this kind may be applied to the catalogue.
pub fn allowed(catalog: &Catalog, entry: &CatalogRecord) -> bool
    ensures { result ≡ is_allowed catalog.now entry.now }
{
    let arrays = &catalog.arrays;
    match entry {
        CatalogRecord::Create { name, .. } => has_room_for(arrays, name),
        CatalogRecord::First { name, .. } => has_room_for(arrays, name),
        CatalogRecord::Next { name, .. } => has_array(arrays, name) && has_number(arrays, name),
        CatalogRecord::Remove { name } => has_array(arrays, name),
        CatalogRecord::RemoveVersions { name, below } => {
            has_array(arrays, name) && (1 <= *below && *below <= newest_version(arrays, name))
        }
    }
}
