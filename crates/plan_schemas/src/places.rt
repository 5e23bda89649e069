//! Items at places of a list.
ghost use Rattle.std.specs.Prelude.{◌≡◌, ◌++◌, slice_get, IfOk, OnOk};
ghost use Rattle.std.specs.Option.{option_to_list};
ghost use Rattle.logical_plan.specs.BoxOps.{items_at};

use cell_values::{Copies, List, Memory};

fn push_from<T: Copies + Drop>(
    found: &mut List<T>,
    items: &List<T>,
    place: usize,
) -> Result<(), Memory>
    ensures { OnOk result (found.new ≡ found.old ++ option_to_list (slice_get items.now place)) }
{
    match items.get(place) {
        Some(item) => found.push(item.copy()?),
        None => Ok(()),
    }
}

/// The items at these places, of those that there are.
pub(crate) fn at_places<T: Copies + Drop>(
    items: &List<T>,
    places: &List<u32>,
) -> Result<List<T>, Memory>
    ensures { IfOk result (λ found. found ≡ items_at places.now items.now) }
{
    let mut found = List::with_capacity(items.allocator(), places.len())?;
    for place in places.as_slice() {
        push_from(&mut found, items, *place as usize)?;
    }
    Ok(found)
}
