//! What the names of the stored arrays tell about one of them.
ghost use Rattle.std.specs.Prelude.{◌≡◌};
ghost use Rattle.std.specs.Option.{option_copied};
ghost use Rattle.std.specs.Str.{bytes_eq};
ghost use Rattle.plan_changes.specs.Allowed.{has_room};
ghost use Rattle.plan_changes.specs.Changes.{has_array, entry_named, next_of, last_of, newest_of};
ghost use Rattle.plan_changes.specs.Stored.{is_before};

use expr_nulls::{List, Name};
use logical_plan::NameEntry;

/// Whether two names are the same.
pub fn is_same(a: &Name, b: &Name) -> bool
    ensures { result ≡ bytes_eq a.now b.now }
{
    a.as_slice() == b.as_slice()
}

/// Whether a name comes before another, in byte order.
pub fn is_before(a: &Name, b: &Name) -> bool
    ensures { result ≡ is_before a.now b.now }
{
    a.as_slice().cmp(b.as_slice()).is_lt()
}

/// Whether some array has a name.
pub fn has_array(arrays: &List<NameEntry>, name: &Name) -> bool
    ensures { result ≡ has_array arrays.now name.now }
{
    arrays
        .as_slice()
        .iter()
        .any(|entry| is_same(&entry.name, name))
}

/// Whether one more array may stand.
pub fn has_room(arrays: &List<NameEntry>) -> bool
    ensures { result ≡ has_room arrays.now }
{
    arrays.len() < 1024
}

/// The array of a name.
pub fn entry_named<'a>(arrays: &'a List<NameEntry>, name: &Name) -> Option<&'a NameEntry>
    ensures { option_copied result ≡ entry_named arrays.now name.now }
{
    arrays
        .as_slice()
        .iter()
        .find(|entry| is_same(&entry.name, name))
}

/// The last of some numbers, 0 where there is none.
pub fn last_of(numbers: &List<u32>) -> u32
    ensures { result ≡ last_of numbers.now }
{
    match numbers.as_slice().last() {
        Some(number) => *number,
        None => 0,
    }
}

/// The number of the next version of an array, 1 where none has the name.
pub fn next_of(arrays: &List<NameEntry>, name: &Name) -> u32
    ensures { result ≡ next_of arrays.now name.now }
{
    match entry_named(arrays, name) {
        Some(entry) => entry.next,
        None => 1,
    }
}

/// The newest version of an array, 0 where there is none.
pub fn newest_of(arrays: &List<NameEntry>, name: &Name) -> u32
    ensures { result ≡ newest_of arrays.now name.now }
{
    match entry_named(arrays, name) {
        Some(entry) => last_of(&entry.versions),
        None => 0,
    }
}
