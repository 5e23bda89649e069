//! The arrays of a catalogue, changed in place.
ghost use Rattle.std.specs.Prelude.{◌≡◌, false, ◌≤◌, map, drop, not, nat_lt, OnOk, length, IfOk, IsTrue};
ghost use Rattle.std.specs.List.{filter, list_all, count_by, prefix_len};
ghost use Rattle.plan_changes.specs.Allowed.{has_number};
ghost use Rattle.plan_changes.specs.Changes.{has_array};
ghost use Rattle.plan_changes.specs.Stored.{is_before};
ghost use Rattle.version_catalog.specs.Records.{entries_of, is_array, with_new, with_directory, from_version, without};

use crate::{BlobAt, CatalogArray};
use cell_values::{List, Memory, Name, Schema};
use plan_changes::{NameEntry, from_number, is_before, is_same};

/// How many arrays come before a name.
fn place_of(arrays: &[CatalogArray], name: &Name) -> usize
    ensures place { result ≡ prefix_len (λ array. is_before array.entry.name name.now) arrays.now }
    ensures within { result ≤ length arrays.now }
{
    let mut place = 0;
    while place < arrays.len() && is_before(&arrays[place].entry.name, name) {
        place += 1;
    }
    place
}

/// One more array, without versions.
pub(crate) fn with_new(
    arrays: List<CatalogArray>,
    name: &Name,
    schema: &Schema,
) -> Result<List<CatalogArray>, Memory>
    ensures { IfOk result (λ more. more ≡ with_new name.now schema.now arrays) }
{
    let mut arrays = arrays;
    let place = place_of(arrays.as_slice(), name);
    let entry = NameEntry {
        name: name.copy()?,
        schema: schema.copy()?,
        next: 1,
        versions: arrays.another(),
    };
    let array = CatalogArray {
        entry,
        directories: arrays.another(),
    };
    arrays.insert(place, array)?;
    Ok(arrays)
}

/// One more version with this directory, if the array has the name.
fn raise(array: &mut CatalogArray, name: &Name, directory: &BlobAt) -> Result<(), Memory>
    requires { IsTrue (has_number name.now array.old.entry) }
    ensures { OnOk result (array.new ≡ with_directory name.now directory.now array.old) }
{
    if is_same(&array.entry.name, name) {
        let number = array.entry.next;
        array.entry.versions.push(number)?;
        array.directories.push(directory.copy()?)?;
        array.entry.next = number + 1;
    }
    Ok(())
}

fn raise_all(arrays: &mut [CatalogArray], name: &Name, directory: &BlobAt) -> Result<(), Memory>
    requires { IsTrue (list_all (λ array. has_number name.now array.entry) arrays.old) }
    ensures { OnOk result (arrays.new ≡ map (with_directory name.now directory.now) arrays.old) }
{
    for array in arrays.iter_mut() {
        raise(array, name, directory)?;
    }
    Ok(())
}

/// One more version of the array of a name.
pub(crate) fn with_directory(
    arrays: List<CatalogArray>,
    name: &Name,
    directory: &BlobAt,
) -> Result<List<CatalogArray>, Memory>
    requires { IsTrue (list_all (λ array. has_number name.now array.entry) arrays) }
    ensures { IfOk result (λ more. more ≡ map (with_directory name.now directory.now) arrays) }
{
    let mut items = arrays.into_vec();
    raise_all(items.as_mut_slice(), name, directory)?;
    Ok(List::from_vec(items))
}

/// One more array, with its first version.
pub(crate) fn with_first(
    arrays: List<CatalogArray>,
    name: &Name,
    schema: &Schema,
    directory: &BlobAt,
) -> Result<List<CatalogArray>, Memory>
    requires { has_array (entries_of arrays) name.now ≡ false }
    ensures { IfOk result (λ more. more ≡ map (with_directory name.now directory.now) (with_new name.now schema.now arrays)) }
{
    let more = with_new(arrays, name, schema)?;
    with_directory(more, name, directory)
}

/// How many numbers are below one.
fn count_below(numbers: &List<u32>, below: u32) -> usize
    ensures { result ≡ count_by (λ number. nat_lt number below) numbers.now }
{
    let mut count = 0;
    for number in numbers.as_slice() {
        if *number < below {
            count += 1;
        }
    }
    count
}

/// The directories but for the first `count`.
#[tactic(auto, using(crate::proofs::Maps::rotated))]
fn without_first(directories: List<BlobAt>, count: usize) -> List<BlobAt>
    ensures { result ≡ drop count directories }
{
    let mut items = directories.into_vec();
    let gone = count.min(items.len());
    let kept = items.len() - gone;
    items.rotate_left(gone);
    items.truncate(kept);
    List::from_vec(items)
}

/// No version below a number, if the array has the name.
fn cut(array: &mut CatalogArray, name: &Name, below: u32)
    ensures { array.new ≡ from_version name.now below array.old }
{
    if is_same(&array.entry.name, name) {
        let gone = count_below(&array.entry.versions, below);
        let versions = array.entry.versions.take();
        array.entry.versions = from_number(versions, below);
        let directories = array.directories.take();
        array.directories = without_first(directories, gone);
    }
}

fn cut_all(arrays: &mut [CatalogArray], name: &Name, below: u32)
    ensures { arrays.new ≡ map (from_version name.now below) arrays.old }
{
    for array in arrays.iter_mut() {
        cut(array, name, below);
    }
}

/// No version below a number of the array of a name.
pub(crate) fn from_version(
    arrays: List<CatalogArray>,
    name: &Name,
    below: u32,
) -> List<CatalogArray>
    ensures { result ≡ map (from_version name.now below) arrays }
{
    let mut items = arrays.into_vec();
    cut_all(items.as_mut_slice(), name, below);
    List::from_vec(items)
}

/// The arrays but for that of a name.
pub(crate) fn without(arrays: List<CatalogArray>, name: &Name) -> List<CatalogArray>
    ensures { result ≡ without name.now arrays }
{
    let mut items = arrays.into_vec();
    items.retain(|array| !is_same(&array.entry.name, name));
    List::from_vec(items)
}
