//! The stored arrays' names after a change.
ghost use Rattle.std.specs.Prelude.{◌≡◌, ◌≤◌, map, not, nat_lt, OnOk, length, IfOk, IsTrue};
ghost use Rattle.std.specs.List.{filter, list_all};
ghost use Rattle.plan_changes.specs.Changes.{is_named, has_array, place_of, with_array, with_absent, with_version, without_below, names_after};
ghost use Rattle.plan_changes.specs.Allowed.{has_number, names_allow};

use crate::Change;
use crate::lookups::{has_array, is_before, is_same};
use expr_nulls::{List, Memory, Name, Schema};
use logical_plan::{NameEntry, Names};

/// How many arrays come before a name.
fn place_of(arrays: &List<NameEntry>, name: &Name) -> usize
    ensures place { result ≡ place_of arrays.now name.now }
    ensures within { result ≤ length arrays.now }
{
    arrays
        .as_slice()
        .iter()
        .take_while(|entry| is_before(&entry.name, name))
        .count()
}

/// One more array, without versions.
fn with_array(
    arrays: List<NameEntry>,
    name: &Name,
    schema: &Schema,
) -> Result<List<NameEntry>, Memory>
    ensures { IfOk result (λ more. more ≡ with_array name.now schema.now arrays) }
{
    let mut arrays = arrays;
    let place = place_of(&arrays, name);
    let entry = NameEntry {
        name: name.copy()?,
        schema: schema.copy()?,
        next: 1,
        versions: arrays.another(),
    };
    arrays.insert(place, entry)?;
    Ok(arrays)
}

/// One more array, if none has the name.
fn with_absent(
    arrays: List<NameEntry>,
    name: &Name,
    schema: &Schema,
) -> Result<List<NameEntry>, Memory>
    ensures more { IfOk result (λ more. more ≡ with_absent name.now schema.now arrays) }
    ensures number { IfOk result (λ more. IsTrue (list_all (has_number name.now) arrays) → IsTrue (list_all (has_number name.now) more)) }
{
    if has_array(&arrays, name) {
        Ok(arrays)
    } else {
        with_array(arrays, name, schema)
    }
}

/// One more version, if the array has the name.
fn raise(entry: &mut NameEntry, name: &Name) -> Result<(), Memory>
    requires { IsTrue (has_number name.now entry.old) }
    ensures { OnOk result (entry.new ≡ with_version name.now entry.old) }
{
    if is_same(&entry.name, name) {
        let number = entry.next;
        entry.versions.push(number)?;
        entry.next = number + 1;
    }
    Ok(())
}

fn raise_all(arrays: &mut [NameEntry], name: &Name) -> Result<(), Memory>
    requires { IsTrue (list_all (has_number name.now) arrays.old) }
    ensures { OnOk result (arrays.new ≡ map (with_version name.now) arrays.old) }
{
    for entry in arrays.iter_mut() {
        raise(entry, name)?;
    }
    Ok(())
}

/// One more version of the array of a name.
fn with_version(arrays: List<NameEntry>, name: &Name) -> Result<List<NameEntry>, Memory>
    requires { IsTrue (list_all (has_number name.now) arrays) }
    ensures { IfOk result (λ more. more ≡ map (with_version name.now) arrays) }
{
    let mut items = arrays.into_vec();
    raise_all(items.as_mut_slice(), name)?;
    Ok(List::from_vec(items))
}

/// The numbers without those below one.
pub fn from_number(numbers: List<u32>, below: u32) -> List<u32>
    ensures { result ≡ filter (λ number. not (nat_lt number below)) numbers }
{
    let mut items = numbers.into_vec();
    items.retain(|number| !(*number < below));
    List::from_vec(items)
}

/// No version below a number, if the array has the name.
fn cut(entry: &mut NameEntry, name: &Name, below: u32)
    ensures { entry.new ≡ without_below name.now below entry.old }
{
    if is_same(&entry.name, name) {
        let versions = entry.versions.take();
        entry.versions = from_number(versions, below);
    }
}

fn cut_all(arrays: &mut [NameEntry], name: &Name, below: u32)
    ensures { arrays.new ≡ map (without_below name.now below) arrays.old }
{
    for entry in arrays.iter_mut() {
        cut(entry, name, below);
    }
}

/// No version below a number of the array of a name.
fn without_below(arrays: List<NameEntry>, name: &Name, below: u32) -> List<NameEntry>
    ensures { result ≡ map (without_below name.now below) arrays }
{
    let mut items = arrays.into_vec();
    cut_all(items.as_mut_slice(), name, below);
    List::from_vec(items)
}

/// The arrays but for that of a name.
fn without_array(arrays: List<NameEntry>, name: &Name) -> List<NameEntry>
    ensures { result ≡ filter (λ entry. not (is_named name.now entry)) arrays }
{
    let mut items = arrays.into_vec();
    items.retain(|entry| !is_same(&entry.name, name));
    List::from_vec(items)
}

/// The names after a change that they allow.
pub fn changed_names(names: Names, change: &Change) -> Result<Names, Memory>
    requires { IsTrue (names_allow names change.now) }
    ensures { IfOk result (λ after. after ≡ names_after names change.now) }
{
    let Names { arrays } = names;
    match change {
        Change::Create { name, schema } => Ok(Names {
            arrays: with_array(arrays, name, schema)?,
        }),
        Change::Store { name, schema, .. } => {
            let arrays = with_absent(arrays, name, schema)?;
            Ok(Names {
                arrays: with_version(arrays, name)?,
            })
        }
        Change::Insert { name, .. } => Ok(Names {
            arrays: with_version(arrays, name)?,
        }),
        Change::Remove { name } => Ok(Names {
            arrays: without_array(arrays, name),
        }),
        Change::RemoveVersions { name, below } => Ok(Names {
            arrays: without_below(arrays, name, *below),
        }),
    }
}
