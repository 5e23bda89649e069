//! Places of attributes that a project names.
ghost use Rattle.std.specs.Prelude.{◌≡◌, ◌+◌, ◌++◌, [], ◌∷◌, if◌then◌else◌, nat_lt, slice_get, IfOk, OnOk};
ghost use Rattle.std.specs.List.{list_all};
ghost use Rattle.std.specs.Option.{option_copied, option_to_list};
ghost use Rattle.logical_plan.specs.BoxOps.{items_at};
ghost use Rattle.plan_rewrite.specs.Inner.Trimmed.{kept, lower, lowered, names_none, picked, relocated};
ghost use Rattle.plan_rewrite.specs.Settled.{is_named};

use cell_values::{Copies, List, Memory};
use std::alloc::Global;

fn push_from(found: &mut List<u32>, items: &List<u32>, place: usize) -> Result<(), Memory>
    ensures { OnOk result (found.new ≡ found.old ++ option_to_list (slice_get items.now place)) }
{
    match items.get(place) {
        Some(item) => found.push(*item),
        None => Ok(()),
    }
}

/// The items at these places, of those that there are.
fn items_at(items: &List<u32>, places: &List<u32>) -> Result<List<u32>, Memory>
    ensures { IfOk result (λ found. found ≡ items_at places.now items.now) }
{
    let mut found = List::with_capacity(items.allocator(), places.len())?;
    for place in places.as_slice() {
        push_from(&mut found, items, *place as usize)?;
    }
    Ok(found)
}

/// The places of a project, of which another project may take some.
pub(crate) fn picked(places: Option<&List<u32>>, own: &List<u32>) -> Result<List<u32>, Memory>
    ensures { IfOk result (λ all. all ≡ picked (option_copied places.entry) own.now) }
{
    match places {
        Some(places) => items_at(own, places),
        None => own.copy(),
    }
}

fn is_named(places: &List<u32>, place: usize) -> bool
    ensures { result ≡ is_named place places.now }
{
    places
        .as_slice()
        .iter()
        .any(|named| *named as usize == place)
}

/// A place when the item at another one is left out.
fn lower(left_out: u32, place: u32) -> u32
    ensures { result ≡ lower left_out place }
{
    if left_out < place { place - 1 } else { place }
}

fn lowered(places: &List<u32>, left_out: u32) -> Result<List<u32>, Memory>
    ensures { IfOk result (λ lowered_ones. lowered_ones ≡ lowered left_out places.now) }
{
    let mut lowered_ones = List::with_capacity(places.allocator(), places.len())?;
    for place in places.as_slice() {
        lowered_ones.push(lower(left_out, *place))?;
    }
    Ok(lowered_ones)
}

/// The place after another one. One beyond what a `u32` counts is as good as no memory.
fn next_place(place: u32) -> Result<u32, Memory>
    ensures { IfOk result (λ next. next ≡ place + 1) }
{
    place.checked_add(1).ok_or(Memory)
}

/// Adds an item whose place is `first` if it is named, and lowers the places after it if it isn't. The place of the next item.
fn push_named<T: Copies + Drop>(
    out: &mut List<T>,
    item: &T,
    first: u32,
    places: &mut List<u32>,
) -> Result<u32, Memory>
    ensures items { OnOk result (out.new ≡ out.old ++ kept first (item.now ∷ []) places.old) }
    ensures places { OnOk result (places.new ≡ relocated first (item.now ∷ []) places.old) }
    ensures next { IfOk result (λ next. next ≡ (if is_named first places.old then first + 1 else first)) }
{
    if is_named(places, first as usize) {
        out.push(item.copy()?)?;
        next_place(first)
    } else {
        *places = lowered(places, first)?;
        Ok(first)
    }
}

/// Adds the named ones of some items, of which the first has the place `first`. The places change as others are left out.
fn push_kept<T: Copies + Drop>(
    out: &mut List<T>,
    items: &[T],
    first: u32,
    places: &mut List<u32>,
) -> Result<(), Memory>
    ensures items { OnOk result (out.new ≡ out.old ++ kept first items.now places.old) }
    ensures places { OnOk result (places.new ≡ relocated first items.now places.old) }
{
    match items {
        [] => Ok(()),
        [item, items @ ..] => {
            let next = push_named(out, item, first, places)?;
            push_kept(out, items, next, places)
        }
    }
}

/// Of items whose first one has the place `first` those that are named, and the places when only these are there.
pub(crate) fn kept<T: Copies + Drop>(
    alloc: Global,
    items: &List<T>,
    first: u32,
    places: &List<u32>,
) -> Result<(List<T>, List<u32>), Memory>
    ensures items { IfOk result (λ both. both.0 ≡ kept first items.now places.now) }
    ensures places { IfOk result (λ both. both.1 ≡ relocated first items.now places.now) }
{
    let mut rest = places.copy()?;
    let mut items_kept = List::new(alloc);
    push_kept(&mut items_kept, items.as_slice(), first, &mut rest)?;
    Ok((items_kept, rest))
}

fn are_below(places: &[u32], first: u32) -> bool
    ensures { result ≡ list_all (λ place. nat_lt place first) places.now }
{
    match places {
        [] => true,
        [place, places @ ..] => *place < first && are_below(places, first),
    }
}

/// Whether a project names no place from `first` on.
pub(crate) fn names_none(first: u32, places: Option<&List<u32>>) -> bool
    ensures { result ≡ names_none first (option_copied places.entry) }
{
    match places {
        Some(places) => are_below(places.as_slice(), first),
        None => false,
    }
}
